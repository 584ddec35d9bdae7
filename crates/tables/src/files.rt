//! Answers to records, record files and questions for text bytes.

ghost use Rattle.std.specs.Prelude.{◌≡◌, ℕ, Some, OnErr, is_ok};
ghost use Rattle.rack.specs.Meaning.{most_channels};
ghost use Rattle.rack.specs.Files.{file_answer, kept_or_read};
ghost use Rattle.tables.specs.Files.{checked_text, filled_text, byte_text, check_of, filled_by};

use hexdigits::Hex;
use rack::{FileFault, Rack, RackRefusal, blank_record};
use record::{RecordFault, decode};
use refusals::Refusal;
use shelf::Shelf;
use single::Single;
use std::fmt;

/// The first field of a record that is out of range, if any.
#[derive(Clone, Copy)]
pub struct Checked(pub Option<RecordFault>);

impl Checked {
    /// Decodes the bytes of a record, if they are as many as a record has.
    pub fn of(bytes: &[u8]) -> Option<Checked>
        ensures { result ≡ check_of bytes.now }
    {
        let row = bytes.as_array()?;
        Some(Checked(decode(row, &mut blank_record()).err()))
    }
}

impl fmt::Display for Checked {
    ghost output = { λ answer. Some (checked_text answer.0) };

    fn fmt<W: fmt::Write>(&self, f: &mut fmt::Formatter<W>) -> fmt::Result {
        match self.0 {
            None => f.write_str("lawful"),
            Some(fault) => {
                let number = Refusal::BadRecord.number();
                write!(f, "refused {number} {}", fault.offset())
            }
        }
    }
}

/// How many records a rack has after a file, or why the file is refused.
#[derive(Clone, Copy)]
pub struct Filled(pub Result<u8, FileFault>);

impl Filled {
    /// Fills a rack by a file.
    pub fn by<R: Filling>(rack: &mut R, file: &[u8]) -> Filled
        ensures answer { result.0 ≡ filled_by R.most file.now }
        ensures after { R.records rack.new ≡
            kept_or_read (is_ok result.0) file.now (R.records rack.old) }
        ensures same { OnErr result.0 (rack.new ≡ rack.old) }
    {
        Filled(rack.fill(file).map(|()| rack.count()))
    }
}

impl fmt::Display for Filled {
    ghost output = { λ answer. Some (filled_text answer.0) };

    fn fmt<W: fmt::Write>(&self, f: &mut fmt::Formatter<W>) -> fmt::Result {
        match self.0 {
            Ok(count) => write!(f, "{count} records"),
            Err(fault) => {
                write!(f, "refused {}", fault.refusal().number())?;
                match fault {
                    FileFault::Count => Ok(()),
                    FileFault::Record(error) => {
                        write!(f, " {} {}", error.number, error.fault.offset())
                    }
                }
            }
        }
    }
}

/// One text byte of a channel, or the number of the refusal.
#[derive(Clone, Copy)]
pub struct Byte(pub Result<u8, RackRefusal>);

impl fmt::Display for Byte {
    ghost output = { λ answer. Some (byte_text answer.0) };

    fn fmt<W: fmt::Write>(&self, f: &mut fmt::Formatter<W>) -> fmt::Result {
        match self.0 {
            Ok(byte) => write!(f, "{}", Hex(&[byte])),
            Err(refusal) => write!(f, "refused {}", refusal.number()),
        }
    }
}

/// A rack that a record file fills.
pub trait Filling: Rack {
    // The most records that it has room for.
    ghost most: { ℕ };

    /// Holds the records of a file, all of them or none.
    fn fill(&mut self, file: &[u8]) -> Result<(), FileFault>
        ensures answer { result ≡ file_answer most file.now }
        ensures after { Self.records self.new ≡
            kept_or_read (is_ok result) file.now (Self.records self.old) }
        ensures same { OnErr result (self.new ≡ self.old) };
}

impl Filling for Shelf {
    ghost most = { most_channels };

    fn fill(&mut self, file: &[u8]) -> Result<(), FileFault> {
        Shelf::fill(self, file)
    }
}

impl Filling for Single {
    ghost most = { 1 };

    fn fill(&mut self, file: &[u8]) -> Result<(), FileFault> {
        Single::fill(self, file)
    }
}
