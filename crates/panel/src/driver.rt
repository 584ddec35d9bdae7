//! Who works a panel.

ghost use Rattle.std.specs.Prelude.{MatchOption};
ghost use Rattle.calls.specs.Views.{call_of, interaction_of};
ghost use Rattle.runs.specs.Channel.{flow_channel};
ghost use Rattle.runs.specs.Traces.{Call as TraceCall, Interaction};

use calls::{Call, Response};
use refusals::Refusal;

/// Who works a panel: it names the next call, and is told what came of it before it names another, so that it may choose each call
/// by all that happened before.
pub trait Driver {
    /// From the driver before to the one after, it named this call.
    ghost names: { Self → Self → TraceCall flow_channel → Type 0 };

    /// From the driver before to the one after, it was told this call with its result.
    ghost hears: { Self → Self → Interaction flow_channel → Type 0 };

    /// From the driver before to the one after, it ended the run.
    ghost ends: { Self → Self → Type 0 };

    /// The next call, or the end of the run.
    fn next(&mut self) -> Option<Call>
        ensures { MatchOption result (ends self.old self.new)
            (λ c. names self.old self.new (call_of c)) };

    /// What came of the call that was named. A gap is told with the room that there was: as much as was asked for, or all the buffer.
    fn hear(&mut self, call: Call, response: Result<Response<'_>, Refusal>)
        ensures { hears self.old self.new (interaction_of call response.entry) };
}
