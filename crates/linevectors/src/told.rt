//! A channel's record, as a reply tells it.

ghost use Rattle.record.specs.Lawful.{Lawful};

use line::{LABELS_LENGTH, MESSAGE_LENGTH, ReplySource};
use record::{Fields, LABELS, MESSAGE, Reading, Record};

/// A lawful record.
#[derive(Clone, Copy)]
pub struct Told {
    pub record: Record,
    pub ghost lawful: { Lawful «record» },
}

impl ReplySource for Told {
    ghost channel_record = { λ told. told.«record» };

    ghost lawful = { λ told. told.lawful.fields };

    fn fields(&self) -> Fields {
        self.record.fields
    }

    fn reading(&self) -> Reading {
        self.record.reading
    }

    fn labels(&self) -> [u8; LABELS_LENGTH] {
        let mut labels = [0; LABELS_LENGTH];
        labels.copy_from_slice(&self.record.text[LABELS]);
        labels
    }

    fn message(&self) -> [u8; MESSAGE_LENGTH] {
        let mut message = [0; MESSAGE_LENGTH];
        message.copy_from_slice(&self.record.text[MESSAGE]);
        message
    }
}
