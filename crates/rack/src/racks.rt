//! The trait of all racks.
ghost use Rattle.std.specs.Prelude.{◌≡◌, false, ℕ, List, Result, is_ok, OnOk};
ghost use Rattle.std.specs.List.{AllByRecursion};
ghost use Rattle.record.specs.Lawful.{Lawful};
ghost use Rattle.record.specs.declared.Record.{Record as ChannelRecord};
ghost use Rattle.rack.specs.Edits.{Edit, edit_of};
ghost use Rattle.rack.specs.Meaning.{told, asked, text_byte, answer_at, after_at};
ghost use Rattle.rack.specs.Puts.{PutsAt};
ghost use Rattle.rack.specs.Refusals.{numbered};

use crate::changes::Change;
use crate::refusal::RackRefusal;
use record::{Fields, Reading};

/// The most channels of a panel: of a rack's records no more can be asked and written.
pub const MAX_CHANNELS: u8 = 15;

const _: () = prove!(MAX_CHANNELS == 15);

/// A rack of channels. What it means is a list of records, numbered from 0, all of them lawful.
pub trait Rack {
    ghost records: { Self → List ChannelRecord };

    // What one call of `write` does to the value of the rack, beyond the records that it means: from the rack before to the
    // rack after, at a channel, by an edit, with its answer. Code over racks thus shows that it writes no more and no less.
    ghost wrote: { Self → Self → ℕ → Edit → Result (Unit {0}) ℕ → Type 0 };

    // The number of records, told as 16 where it is above 15.
    fn count(&self) -> u8
        ensures { result ≡ told (records self.now) };

    fn fields(&self, channel: u8) -> Result<Fields, RackRefusal>
        ensures { numbered result ≡ asked (λ c. c.fields) (records self.now) channel };

    fn reading(&self, channel: u8) -> Result<Reading, RackRefusal>
        ensures { numbered result ≡ asked (λ c. c.reading) (records self.now) channel };

    // One text byte by its place, 0 to 44.
    fn text_byte(&self, channel: u8, place: u8) -> Result<u8, RackRefusal>
        ensures { numbered result ≡ text_byte (records self.now) channel place };

    // Writes one field of one channel, or refuses and leaves the rack as it was.
    fn write(&mut self, channel: u8, change: Change<'_>) -> Result<(), RackRefusal>
        ensures answer { numbered result ≡
            answer_at (records self.old) channel (edit_of change.entry) }
        ensures after { records self.new ≡
            after_at (records self.old) channel (edit_of change.entry) }
        ensures puts { OnOk result
            (PutsAt channel (edit_of change.entry) (records self.old) (records self.new)) }
        ensures once { wrote self.old self.new channel (edit_of change.entry) (numbered result) }
        ensures same { is_ok result ≡ false → self.new ≡ self.old };

    ghost lawful: { (x : Self) → AllByRecursion Lawful (records x) };
}
