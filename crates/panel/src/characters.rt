//! Characters of the line.

ghost use Rattle.std.specs.Prelude.{◌≡◌, false, [], is_ok, None};
ghost use Rattle.calls.specs.Views.{call_of};
ghost use Rattle.calls.specs.declared.Call.TheVariants.{Character};
ghost use Rattle.receiver.specs.Holding.{Holds};
ghost use Rattle.panel.specs.Panels.{Does, result_of};
ghost use Rattle.panel.specs.Working.{GoesOn};

use crate::state::Panel;
use line::Marks;
use rack::Rack;
use receiver::Receiver;
use refusals::Refusal;

impl<R: Rack> Panel<R> {
    /// A panel that was not set up: it has no channels yet.
    pub fn new(rack: R) -> Panel<R>
        ensures rack { result.rack ≡ rack }
        ensures receiver { Holds result.receiver [] }
        ensures supply { result.supply ≡ None }
    {
        Panel {
            rack,
            receiver: Receiver::new(),
            supply: None,
        }
    }

    /// Takes a character of the line: 109 where its marks are above 7. Nothing is written to the rack.
    pub fn character(&mut self, byte: u8, marks: u8) -> Result<(), Refusal>
        ensures does { Does self.old self.new (call_of (Character byte marks)) (result_of result) }
        ensures on { GoesOn self.old self.new (call_of (Character byte marks)) (result_of result) }
        ensures same { is_ok result ≡ false → self.new ≡ self.old }
        ensures rack { self.new.rack ≡ self.old.rack }
    {
        let marks = Marks::try_from(marks)?;
        self.receiver.push(byte, marks);
        Ok(())
    }
}
