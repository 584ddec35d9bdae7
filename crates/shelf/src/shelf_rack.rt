//! How a shelf answers as a rack.
ghost use Rattle.std.specs.Prelude.{◌≡◌, ◌<◌, IfErr, OnOk};
ghost use Rattle.std.specs.Option.{option_map};
ghost use Rattle.std.specs.Result.{result_ok};
ghost use Rattle.arrayvec.specs.ArrayVec.{array_vec_len};
ghost use Rattle.refusals.specs.declared.Refusal.TheVariants.{NoChannel};
ghost use Rattle.record.specs.Layout.{decoded};
ghost use Rattle.rack.specs.Meaning.{channel_of};
ghost use Rattle.shelf.specs.Rows.{records_in, WroteRows};

use crate::shelf::Shelf;
use rack::{Change, Rack, RackRefusal, apply};
use record::{Fields, RECORD_LENGTH, Reading, encode, record_at, text_of};
use refusals::Refusal;

impl Shelf {
    // The row of a channel.
    fn row(&self, channel: u8) -> Result<&[u8; RECORD_LENGTH], Refusal>
        ensures value { option_map (λ row. decoded row.now) (result_ok result) ≡
            channel_of (records_in self.now.rows.items) channel }
        ensures within { OnOk result (channel < array_vec_len self.now.rows) }
        ensures refusal { IfErr result (λ e. e ≡ NoChannel) }
    {
        self.rows.get(channel as usize).ok_or(Refusal::NoChannel)
    }
}

// As a single instrument answers, but from a row: a trait for both would have these methods again.
impl Rack for Shelf {
    ghost records = { λ s. records_in s.rows.items };

    ghost wrote = { λ old new. WroteRows old.rows.items new.rows.items };

    ghost lawful = { λ s. s.lawful };

    fn count(&self) -> u8 {
        self.rows.len() as u8
    }

    fn fields(&self, channel: u8) -> Result<Fields, RackRefusal> {
        Ok(record_at(self.row(channel)?).fields)
    }

    fn reading(&self, channel: u8) -> Result<Reading, RackRefusal> {
        Ok(record_at(self.row(channel)?).reading)
    }

    fn text_byte(&self, channel: u8, place: u8) -> Result<u8, RackRefusal> {
        let text = text_of(self.row(channel)?);
        Ok(*text.get(place as usize).ok_or(Refusal::OutOfForm)?)
    }

    fn write(&mut self, channel: u8, change: Change<'_>) -> Result<(), RackRefusal> {
        let mut record = record_at(self.row(channel)?);
        apply(&mut record, change)?;
        self.rows[channel as usize] = encode(&record);
        Ok(())
    }
}
