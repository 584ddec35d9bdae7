//! The ends of transmissions.

ghost use Rattle.std.specs.Prelude.{◌≡◌, ◌≤◌, false, length, is_ok, IfOk, IfSome};
ghost use Rattle.runs.specs.Traces.{silent};
ghost use Rattle.panel.specs.Panels.{Does, Wrote, AnsweredLawfully, Told, answering_for, gap_with, gap_result_of, buffer_of};
ghost use Rattle.panel.specs.Working.{GoesOn};

use crate::state::Panel;
use rack::Rack;
use refusals::Refusal;
use serving::{Answer, serve};

impl<R: Rack> Panel<R> {
    /// Ends a transmission: 102 where `out` has under 64 bytes, whatever would have been answered, and the transmission then goes
    /// on. The one channel that is meant writes what its command writes, and answers in the front of `out`; else all is silent.
    pub fn gap(&mut self, out: &mut [u8]) -> Result<Option<Answer>, Refusal>
        ensures does { Does self.old self.new (gap_with out.old) (gap_result_of result out.new) }
        ensures on { GoesOn self.old self.new (gap_with out.old) (gap_result_of result out.new) }
        ensures buffer { out.new ≡ buffer_of (gap_result_of result out.new) out.old }
        ensures tells { Told self.old out.old (gap_result_of result out.new) }
        ensures bound { IfOk result (λ o. IfSome o (λ a. a.length ≤ length out.old)) }
        ensures writes { Wrote self.old self.new (answering_for self.old out.old) }
        ensures idle { gap_result_of result out.new ≡ silent → self.new.rack ≡ self.old.rack }
        ensures law { AnsweredLawfully self.old out.old }
        ensures same { is_ok result ≡ false → self.new ≡ self.old }
    {
        let answer = serve(&mut self.rack, self.supply, self.receiver.received(), out)?;
        self.receiver.clear();
        Ok(answer)
    }
}
