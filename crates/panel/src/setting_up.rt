//! Set-ups.

ghost use Rattle.std.specs.Prelude.{◌≡◌, false, [], is_ok, IsOk, OnOk};
ghost use Rattle.runs.specs.SetUps.{SetUp};
ghost use Rattle.setup.specs.SetUps.{refusal_in, set_up_refusal};
ghost use Rattle.panel.specs.Panels.{records_in};
ghost use Rattle.panel.specs.Working.{Underway};

use crate::state::Panel;
use rack::Rack;
use refusals::Refusal;

impl<R: Rack> Panel<R> {
    /// Sets the panel up under a supply in mL/min: 107, 104, 105 or 106 in this order. Taken, a new transmission begins.
    pub fn set_up(&mut self, supply: u32) -> Result<(), Refusal>
        ensures refusal { refusal_in result ≡ set_up_refusal supply (records_in self.old) }
        ensures exact { SetUp supply (records_in self.old) → IsOk result }
        ensures underway { OnOk result (Underway supply (records_in self.old) [] self.new) }
        ensures rack { self.new.rack ≡ self.old.rack }
        ensures same { is_ok result ≡ false → self.new ≡ self.old }
    {
        setup::check(&self.rack, supply)?;
        self.supply = Some(supply);
        self.receiver.clear();
        Ok(())
    }
}
