//! What can be wrong with the bytes of a record.
ghost use Rattle.std.specs.Prelude.{◌≡◌, Some, IfErr};
ghost use Rattle.std.specs.Result.{result_err};
ghost use Rattle.record.specs.Faults.{offset_of, words_of, offends?, fault_of, FirstFault};

use crate::bytes::{all_zero, u32_at};
use crate::layout::*;
use crate::readings::value_of;
use std::error::Error;
use std::fmt;

/// The field of a record that is out of range, numbered by its offset.
#[derive(Clone, Copy, PartialEq, Eq, Debug)]
pub enum RecordFault {
    PollingAddress = 4,
    Preambles = 5,
    Flags = 9,
    Setpoint = 10,
    Ceiling = 14,
    FullScale = 16,
    Flow = 20,
    Temperature = 24,
    Reserved = 73,
}

impl RecordFault {
    /// Where the field stands in the bytes of a record.
    pub fn offset(self) -> u8
        ensures { result ≡ offset_of self }
    {
        self as u8
    }
}

impl fmt::Display for RecordFault {
    ghost output = { λ fault. Some (words_of fault) };

    fn fmt<W: fmt::Write>(&self, f: &mut fmt::Formatter<W>) -> fmt::Result {
        let offset = self.offset();
        write!(f, "field out of range at offset {offset}")
    }
}

impl Error for RecordFault {}

// The fields that can be out of range, in the order of their offsets.
const FAULTS: [RecordFault; 9] = [
    RecordFault::PollingAddress,
    RecordFault::Preambles,
    RecordFault::Flags,
    RecordFault::Setpoint,
    RecordFault::Ceiling,
    RecordFault::FullScale,
    RecordFault::Flow,
    RecordFault::Temperature,
    RecordFault::Reserved,
];

/// Whether the bytes of a record are lawful; if not, by the first field that is out of range.
pub fn check(bytes: &[u8; RECORD_LENGTH]) -> Result<(), RecordFault>
    ensures fault { result_err result ≡ fault_of bytes.now }
    ensures first { IfErr result (FirstFault bytes.now) }
{
    match fault_in(bytes) {
        Some(fault) => Err(fault),
        None => Ok(()),
    }
}

fn fault_in(bytes: &[u8; RECORD_LENGTH]) -> Option<RecordFault>
    ensures { result ≡ fault_of bytes.now }
{
    FAULTS.iter().copied().find(|fault| offends(bytes, *fault))
}

// Whether the field that a fault names is out of range.
fn offends(bytes: &[u8; RECORD_LENGTH], fault: RecordFault) -> bool
    ensures { result ≡ offends? bytes.now fault }
{
    match fault {
        RecordFault::PollingAddress => bytes[POLLING_ADDRESS_AT] > MAX_POLLING_ADDRESS,
        RecordFault::Preambles => !matches!(bytes[PREAMBLES_AT], MIN_PREAMBLES..=MAX_PREAMBLES),
        RecordFault::Flags => bytes[FLAGS_AT] > MAX_FLAGS,
        RecordFault::Setpoint => !setpoint::lawful(u32_at(bytes, SETPOINT_AT)),
        RecordFault::Ceiling => bytes[CEILING_AT] > MAX_CEILING,
        RecordFault::FullScale => !setpoint::is_full_scale(u32_at(bytes, FULL_SCALE_AT)),
        RecordFault::Flow => !value_of(u32_at(bytes, FLOW_AT)).is_finite(),
        RecordFault::Temperature => !value_of(u32_at(bytes, TEMPERATURE_AT)).is_finite(),
        RecordFault::Reserved => !all_zero(&bytes[RESERVED_AT..]),
    }
}

#[cfg(test)]
mod tests {
    use super::*;
    use std::fmt::Write;

    // A writer that takes one piece of text and fails at the next.
    #[derive(Drop)]
    struct Narrow {
        pieces: u8,
    }

    impl fmt::Write for Narrow {
        fn write_str(&mut self, _text: &str) -> fmt::Result {
            if self.pieces > 0 {
                return Err(fmt::Error);
            }
            self.pieces = 1;
            Ok(())
        }
    }

    #[test]
    fn a_writer_that_fails(rt: HostRuntime) {
        let mut narrow = Narrow { pieces: 0 };
        assert!(rt; write!(narrow, "{}", RecordFault::Flags).is_err());
        assert_eq!(rt; narrow.pieces, 1);
    }
}
