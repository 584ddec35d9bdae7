//! Writes, as they are handed to a rack.
use record::Reading;

/// A write to one channel: a value for one field.
#[derive(Clone, Copy)]
pub enum Change<'a> {
    PollingAddress(u8),
    // How many preambles a response has.
    Preambles(u8),
    AssemblyNumber(u32),
    // Whether the configuration counts as changed.
    Changed(bool),
    // Whether the key is open.
    Key(bool),
    Sample(Reading),
    // A run of text bytes from a place on.
    Text { place: usize, bytes: &'a [u8] },
    // In percent, a binary32 pattern.
    Setpoint(u32),
}
