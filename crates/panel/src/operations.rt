//! What is done at a channel itself: samples, and turns of its key.

ghost use Rattle.std.specs.Prelude.{◌≡◌, false, is_ok};
ghost use Rattle.rack.specs.Refusals as rack;
ghost use Rattle.rack.specs.Edits as edits;
ghost use Rattle.rack.specs.Edits.{edit_of};
ghost use Rattle.refusals.specs.Refusals.{number_of, numbered};
ghost use Rattle.runs.specs.Channel.{sample as sampled, key as turned};
ghost use Rattle.runs.specs.Traces.{local};
ghost use Rattle.panel.specs.Working.{GoesOn};
ghost use Rattle.panel.specs.Panels.{Does, OneWrite, Operates, call_number, result_of};

use crate::state::Panel;
use rack::{Change, Rack, RackRefusal};
use record::Reading;
use refusals::Refusal;

// The refusal of a call that a rack gives: samples and key turns get no response code. No `From`: it would lose one.
fn call_refusal(refusal: RackRefusal) -> Refusal
    ensures { number_of result ≡ call_number (rack.number_of refusal) }
{
    match refusal {
        RackRefusal::Call(refusal) => refusal,
        _ => Refusal::OutOfForm,
    }
}

impl<R: Rack> Panel<R> {
    /// Writes a reading of a channel: 101 where there is no such channel, then 108 where it is not finite.
    pub fn sample(&mut self, channel: u8, reading: Reading) -> Result<(), Refusal>
        ensures does { Does self.old self.new (local channel (sampled reading)) (result_of result) }
        ensures on { GoesOn self.old self.new (local channel (sampled reading)) (result_of result) }
        ensures once { OneWrite self.old self.new channel (edits.sample reading) (numbered result) }
        ensures same { is_ok result ≡ false → self.new ≡ self.old }
    {
        self.operate(channel, Change::Sample(reading))
    }

    /// Opens or shuts the key of a channel: 101 where there is no such channel.
    pub fn key(&mut self, channel: u8, open: bool) -> Result<(), Refusal>
        ensures does { Does self.old self.new (local channel (turned «open»)) (result_of result) }
        ensures on { GoesOn self.old self.new (local channel (turned «open»)) (result_of result) }
        ensures once { OneWrite self.old self.new channel (edits.key «open») (numbered result) }
        ensures same { is_ok result ≡ false → self.new ≡ self.old }
    {
        self.operate(channel, Change::Key(open))
    }

    // Writes what a local operation changes.
    fn operate(&mut self, channel: u8, change: Change<'_>) -> Result<(), Refusal>
        ensures operates { Operates self.old self.new channel (edit_of change.entry) result }
        ensures same { is_ok result ≡ false → self.new ≡ self.old }
    {
        if self.supply.is_none() {
            return Err(Refusal::NoChannel);
        }
        self.rack.write(channel, change).map_err(call_refusal)
    }
}
