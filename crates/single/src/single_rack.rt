//! How a single instrument is filled, and how it answers as a rack.
ghost use Rattle.std.specs.Prelude.{◌≡◌, false, [], ◌∷◌, is_ok, IfOk, IfErr, OnOk};
ghost use Rattle.std.specs.Option.{option_map};
ghost use Rattle.std.specs.Result.{result_ok};
ghost use Rattle.refusals.specs.declared.Refusal.TheVariants.{NoChannel};
ghost use Rattle.record.specs.Lawful.{Lawful};
ghost use Rattle.rack.specs.Blank.{blank_record};
ghost use Rattle.rack.specs.Files.{file_answer, kept_or_read, Explains, Taken};
ghost use Rattle.rack.specs.Meaning.{channel_of, WroteRecords};

use crate::single::Single;
use rack::{Change, FileFault, Rack, RackRefusal, apply, blank_record, check_record};
use record::{Fields, Reading, Record, record_at};
use refusals::Refusal;

impl Single {
    /// A single instrument to begin with, until a file fills it.
    pub fn blank() -> Single
        ensures { result.«record» ≡ blank_record }
    {
        Single {
            record: blank_record(),
        }
    }

    /// Takes the record of a file of just one, or refuses and stays as it was.
    pub fn fill(&mut self, file: &[u8]) -> Result<(), FileFault>
        ensures answer { result ≡ file_answer 1 file.now }
        ensures after { self.new.«record» ∷ [] ≡
            kept_or_read (is_ok result) file.now (self.old.«record» ∷ []) }
        ensures explains { IfErr result (Explains 1 file.now) }
        ensures taken { OnOk result (Taken 1 file.now) }
        ensures same { is_ok result ≡ false → self.new ≡ self.old }
    {
        let row = file.as_array().ok_or(FileFault::Count)?;
        check_record(0, row)?;
        self.record = record_at(row);
        Ok(())
    }

    // The record of a channel.
    fn at(&self, channel: u8) -> Result<&Record, Refusal>
        ensures value { option_map (λ r. r.now) (result_ok result) ≡
            channel_of (self.now.«record» ∷ []) channel }
        ensures lawful { IfOk result (λ r. Lawful r.now) }
        ensures refusal { IfErr result (λ e. e ≡ NoChannel) }
    {
        (channel == 0)
            .then_some(&self.record)
            .ok_or(Refusal::NoChannel)
    }
}

impl Rack for Single {
    ghost records = { λ s. s.«record» ∷ [] };

    ghost wrote = { λ old new. WroteRecords (old.«record» ∷ []) (new.«record» ∷ []) };

    ghost lawful = { λ s. (s.lawful, tt) };

    fn count(&self) -> u8 {
        1
    }

    fn fields(&self, channel: u8) -> Result<Fields, RackRefusal> {
        Ok(self.at(channel)?.fields)
    }

    fn reading(&self, channel: u8) -> Result<Reading, RackRefusal> {
        Ok(self.at(channel)?.reading)
    }

    fn text_byte(&self, channel: u8, place: u8) -> Result<u8, RackRefusal> {
        let record = self.at(channel)?;
        Ok(*record.text.get(place as usize).ok_or(Refusal::OutOfForm)?)
    }

    fn write(&mut self, channel: u8, change: Change<'_>) -> Result<(), RackRefusal> {
        let mut record = *self.at(channel)?;
        apply(&mut record, change)?;
        self.record = record;
        Ok(())
    }
}
