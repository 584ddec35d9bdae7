//! Response codes.

ghost use Rattle.std.specs.Prelude.{◌≡◌};
ghost use Rattle.setpoint.specs.Refusals.{code_of};
ghost use Rattle.line.specs.Codes.{code_number};

use setpoint::SetpointRefusal;

/// Response codes of a reply, by the names of the protocol, with the numbers that stand in its first
/// status byte.
#[derive(Clone, Copy, PartialEq, Eq, Debug)]
pub enum ResponseCode {
    Success = 0,
    InvalidSelection = 2,
    TooLarge = 3,
    TooSmall = 4,
    ByteCount = 5,
    WriteProtected = 7,
    AccessRestricted = 16,
    NotImplemented = 64,
}

impl ResponseCode {
    /// The number that stands in a reply.
    pub fn number(self) -> u8
        ensures { result ≡ code_number self }
    {
        self as u8
    }
}

// As a rack's refusal is made of one: the two enums have other cases beside these, so there are two impls.
impl From<SetpointRefusal> for ResponseCode {
    ghost from_gives = { λ e r. code_number r ≡ code_of e };

    fn from(e: SetpointRefusal) -> ResponseCode {
        match e {
            SetpointRefusal::NotANumber => ResponseCode::InvalidSelection,
            SetpointRefusal::AboveCeiling => ResponseCode::TooLarge,
            SetpointRefusal::BelowZero => ResponseCode::TooSmall,
        }
    }
}
