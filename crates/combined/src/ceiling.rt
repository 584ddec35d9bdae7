//! A ceiling over any rack.
ghost use Rattle.std.specs.Prelude.{◌≡◌, false, is_ok, OnOk};
ghost use Rattle.rack.specs.Edits.{edit_of};
ghost use Rattle.rack.specs.Meaning.{told, asked, answer_at, after_at};
ghost use Rattle.rack.specs.Puts.{PutsAt};
ghost use Rattle.rack.specs.Refusals.{numbered};
ghost use Rattle.combined.specs.CeilingLaw.{all_lowered};
ghost use Rattle.combined.specs.Ceilings.{lowered_all, lowered_fields, answer_under};
ghost use Rattle.combined.specs.Ceilings.{turned_away, passed_on};

use rack::{Change, Rack, RackRefusal};
use record::{Fields, Reading};

/// A ceiling over any rack: of its own and the one below it tells the smaller, and refuses by it.
///
/// Its own number is any byte.
#[derive(Drop)]
pub struct Ceiling<R> {
    pub below: R,
    pub percent: u8,
}

impl<R: Rack> Rack for Ceiling<R> {
    ghost records = { λ s. lowered_all s.percent (R.Rack.records s.below) };

    ghost wrote = { λ old new channel edit answer.
        (new.percent ≡ old.percent)
        × passed_on R.Rack.wrote (turned_away old.percent (R.Rack.records old.below) channel edit)
        old.below new.below channel edit answer };

    ghost lawful = { λ s. all_lowered s.percent (R.Rack.records s.below) (R.Rack.lawful s.below) };

    // As many as the rack below tells, 16 for all above 15.
    fn count(&self) -> u8
        ensures answer { result ≡
            told (lowered_all self.now.percent (R.Rack.records self.now.below)) }
        ensures below { result ≡ told (R.Rack.records self.now.below) }
    {
        self.below.count()
    }

    // Those of the rack below, but with the smaller of the two ceilings.
    fn fields(&self, channel: u8) -> Result<Fields, RackRefusal>
        ensures answer { numbered result ≡
            asked (λ c. c.fields) (lowered_all self.now.percent (R.Rack.records self.now.below))
            channel }
        ensures below { numbered result ≡
            asked (λ c. lowered_fields self.now.percent c.fields) (R.Rack.records self.now.below)
            channel }
    {
        let mut fields = self.below.fields(channel)?;
        fields.ceiling = self.percent.min(fields.ceiling);
        Ok(fields)
    }

    fn reading(&self, channel: u8) -> Result<Reading, RackRefusal> {
        self.below.reading(channel)
    }

    fn text_byte(&self, channel: u8, place: u8) -> Result<u8, RackRefusal> {
        self.below.text_byte(channel, place)
    }

    // Refuses by the smaller of the two ceilings; what it does not refuse the rack below is asked once.
    fn write(&mut self, channel: u8, change: Change<'_>) -> Result<(), RackRefusal>
        ensures answer { numbered result ≡
            answer_at (lowered_all self.old.percent (R.Rack.records self.old.below)) channel
            (edit_of change.entry) }
        ensures below { numbered result ≡
            answer_under self.old.percent (R.Rack.records self.old.below) channel
            (edit_of change.entry) }
        ensures after { lowered_all self.new.percent (R.Rack.records self.new.below) ≡
            after_at (lowered_all self.old.percent (R.Rack.records self.old.below)) channel
            (edit_of change.entry) }
        ensures held { OnOk result (R.Rack.records self.new.below ≡
            after_at (R.Rack.records self.old.below) channel (edit_of change.entry)) }
        ensures puts { OnOk result (PutsAt channel (edit_of change.entry)
            (lowered_all self.old.percent (R.Rack.records self.old.below))
            (lowered_all self.new.percent (R.Rack.records self.new.below))) }
        ensures once { (self.new.percent ≡ self.old.percent)
            × passed_on R.Rack.wrote
            (turned_away self.old.percent (R.Rack.records self.old.below) channel
            (edit_of change.entry))
            self.old.below self.new.below channel (edit_of change.entry) (numbered result) }
        ensures same { is_ok result ≡ false → self.new ≡ self.old }
    {
        if let Change::Setpoint(pattern) = change {
            let fields = self.fields(channel)?;
            setpoint::admitted(pattern, fields.ceiling)?;
        }
        self.below.write(channel, change)
    }
}
