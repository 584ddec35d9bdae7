//! A single instrument.
ghost use Rattle.record.specs.Lawful.{Lawful};

use record::Record;

/// A single instrument: a rack of one channel, its record held as fields.
#[derive(Drop)]
pub struct Single {
    pub(crate) record: Record,
    ghost lawful: { Lawful «record» },
}
