//! What can be wrong with a record file.
ghost use Rattle.std.specs.Prelude.{◌≡◌, Some, None, IfErr, OnOk};
ghost use Rattle.std.specs.Result.{result_err};
ghost use Rattle.record.specs.Faults.{fault_of};
ghost use Rattle.record.specs.Lawful.{Lawful};
ghost use Rattle.record.specs.Layout.{decoded};
ghost use Rattle.rack.specs.Files.{refusal_of, words_of, fault_in, Reports};
ghost use Rattle.rack.specs.declared.files.FileFault.TheVariants.{Record as Bad};

use record::{RECORD_LENGTH, RecordFault};
use refusals::Refusal;
use std::error::Error;
use std::fmt;

/// A record of a file with a field out of range: which record, and which field.
#[derive(Clone, Copy, PartialEq, Debug)]
pub struct RecordError {
    pub number: usize,
    pub fault: RecordFault,
}

/// Why a record file is refused.
#[derive(Clone, Copy, PartialEq, Debug)]
pub enum FileFault {
    // It is not of 1 to 15 records, for a single instrument not of one.
    Count,
    // The first record with a field out of range.
    Record(RecordError),
}

impl FileFault {
    /// A method and no `From`: it leaves out which record and which field.
    pub fn refusal(self) -> Refusal
        ensures { result ≡ refusal_of self }
    {
        match self {
            FileFault::Count => Refusal::NumberOfRecords,
            FileFault::Record(_) => Refusal::BadRecord,
        }
    }
}

impl fmt::Display for FileFault {
    ghost output = { λ fault. Some (words_of fault) };

    fn fmt<W: fmt::Write>(&self, f: &mut fmt::Formatter<W>) -> fmt::Result {
        let refusal = self.refusal();
        match self {
            FileFault::Count => write!(f, "{refusal}"),
            FileFault::Record(RecordError { number, fault }) => write!(
                f,
                "{refusal} {number}: {fault}"
            ),
        }
    }
}

impl Error for FileFault {}

impl From<RecordError> for FileFault {
    ghost from_gives = { λ e r. r ≡ Bad e };

    fn from(e: RecordError) -> FileFault {
        FileFault::Record(e)
    }
}

/// Whether a record of a file is lawful.
pub fn check_record(number: usize, row: &[u8; RECORD_LENGTH]) -> Result<(), RecordError>
    ensures fault { result_err result ≡ fault_in number (fault_of row.now) None }
    ensures names { IfErr result (Reports number row.now) }
    ensures lawful { OnOk result (Lawful (decoded row.now)) }
{
    record::check(row).map_err(|fault| RecordError { number, fault })
}

#[cfg(test)]
mod tests {
    use super::*;
    use std::fmt::Write;

    // A writer that takes one piece of text and fails at the next.
    #[derive(Drop)]
    struct Narrow {
        pieces: u8,
    }

    impl fmt::Write for Narrow {
        fn write_str(&mut self, _text: &str) -> fmt::Result {
            if self.pieces > 0 {
                return Err(fmt::Error);
            }
            self.pieces = 1;
            Ok(())
        }
    }

    #[test]
    fn a_writer_that_fails(rt: HostRuntime) {
        let mut narrow = Narrow { pieces: 0 };
        let fault = FileFault::from(RecordError {
            number: 3,
            fault: RecordFault::Flags,
        });
        assert!(rt; write!(narrow, "{fault}").is_err());
        assert_eq!(rt; narrow.pieces, 1);
    }
}
