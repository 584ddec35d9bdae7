//! Why a rack refuses.
ghost use Rattle.std.specs.Prelude.{◌≡◌};
ghost use Rattle.rack.specs.Refusals.{number_of};
ghost use Rattle.rack.specs.declared.refusal.RackRefusal.TheVariants.{Call};
ghost use Rattle.setpoint.specs.Refusals.{code_of};

use refusals::Refusal;
use setpoint::SetpointRefusal;

/// Why a rack refuses: by a response code of the line, or as any call refuses. Without numbers of its own, as an enum of numbers
/// has no case that holds a refusal.
#[derive(Clone, Copy, PartialEq, Debug)]
pub enum RackRefusal {
    InvalidSelection,
    TooLarge,
    TooSmall,
    Call(Refusal),
}

impl RackRefusal {
    /// What answers the write: a response code of the line, or the number of the call's refusal.
    pub fn number(self) -> u8
        ensures { result ≡ number_of self }
    {
        match self {
            RackRefusal::InvalidSelection => 2,
            RackRefusal::TooLarge => 3,
            RackRefusal::TooSmall => 4,
            RackRefusal::Call(refusal) => refusal.number(),
        }
    }
}

impl From<SetpointRefusal> for RackRefusal {
    ghost from_gives = { λ e r. number_of r ≡ code_of e };

    fn from(e: SetpointRefusal) -> RackRefusal {
        match e {
            SetpointRefusal::NotANumber => RackRefusal::InvalidSelection,
            SetpointRefusal::AboveCeiling => RackRefusal::TooLarge,
            SetpointRefusal::BelowZero => RackRefusal::TooSmall,
        }
    }
}

impl From<Refusal> for RackRefusal {
    ghost from_gives = { λ e r. r ≡ Call e };

    fn from(e: Refusal) -> RackRefusal {
        RackRefusal::Call(e)
    }
}
