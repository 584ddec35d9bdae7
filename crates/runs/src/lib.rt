//! Laws over whole runs of a panel, proved about the definitions: isolation, damage, header and records.
//!
//! `specs/SetUps.antt` has the promise whole. What a panel's calls are is in `specs/Traces.antt` and `specs/Steps.antt`, what one
//! channel does in `specs/Channel.antt`; the laws themselves are in `specs/Laws.antt`, for any device.
#![tactic(auto)]

ghost use Rattle.std.specs.Prelude.{◌≡◌};
ghost use Rattle.runs.specs.SetUps.{RunsPromised, RunsAlike, CallsFollow, CallsDetermined};

/// Has nothing to compute: it stands for the laws that its clauses name.
///
/// Every run from a set-up that was taken keeps the promise; one of a panel that holds one channel alone, with the calls of that
/// channel, has its results and its record; and each call has exactly one result and one state after it.
pub fn laws() -> u8
    ensures nothing { result ≡ 0 }
    ensures promised { RunsPromised }
    ensures alone { RunsAlike }
    ensures follow { CallsFollow }
    ensures determined { CallsDetermined }
{
    0
}
