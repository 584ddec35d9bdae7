//! The calls of a panel, and what comes of each, as values.
#![tactic(auto)]

use record::Reading;

/// A call on a panel.
#[derive(Clone, Copy)]
pub enum Call {
    /// A character of the line, with the sum of its marks: 1 parity, 2 overrun, 4 framing.
    Character { byte: u8, marks: u8 },
    /// The line was silent for the length of a gap; the answer may have so many bytes.
    Gap { room: usize },
    /// Flow and temperature of a channel.
    Sample { channel: u8, reading: Reading },
    /// A turn of a channel's key.
    Key { channel: u8, open: bool },
}

/// What came of a call that was not refused.
#[derive(Clone, Copy)]
pub enum Response<'a> {
    Taken,
    /// A gap that nobody answers.
    Silent,
    /// A gap that a channel answers by these bytes.
    Answered { channel: u8, bytes: &'a [u8] },
}
