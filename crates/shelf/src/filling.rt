//! How a shelf is filled.
ghost use Rattle.std.specs.Prelude.{◌≡◌, false, [], ◌∷◌, is_ok, IfErr, OnOk};
ghost use Rattle.rack.specs.Blank.{blank_record};
ghost use Rattle.rack.specs.Files.{file_answer, kept_or_read, Explains, Taken};
ghost use Rattle.rack.specs.Meaning.{most_channels};
ghost use Rattle.shelf.specs.Rows.{records_in};

use crate::shelf::Shelf;
use arrayvec::ArrayVec;
use rack::{FileFault, blank_record, check_record};
use record::{RECORD_LENGTH, encode};

impl Shelf {
    /// A shelf to begin with, of one blank record, until a file fills it.
    pub fn blank() -> Shelf
        ensures { records_in result.rows.items ≡ blank_record ∷ [] }
    {
        let mut rows = ArrayVec::new();
        rows.push(encode(&blank_record()));
        Shelf { rows }
    }

    /// Takes the records of a file, or refuses and stays as it was.
    pub fn fill(&mut self, file: &[u8]) -> Result<(), FileFault>
        ensures answer { result ≡ file_answer most_channels file.now }
        ensures after { records_in self.new.rows.items ≡
            kept_or_read (is_ok result) file.now (records_in self.old.rows.items) }
        ensures explains { IfErr result (Explains most_channels file.now) }
        ensures taken { OnOk result (Taken most_channels file.now) }
        ensures same { is_ok result ≡ false → self.new ≡ self.old }
    {
        let (rows, rest) = file.as_chunks::<RECORD_LENGTH>();
        if rows.is_empty() || !rest.is_empty() {
            return Err(FileFault::Count);
        }
        let mut held = ArrayVec::new();
        held.try_extend_from_slice(rows)
            .map_err(|_| FileFault::Count)?;
        for (number, row) in rows.iter().enumerate() {
            check_record(number, row)?;
        }
        self.rows = held;
        Ok(())
    }
}
