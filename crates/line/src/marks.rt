//! The marks of a character.

ghost use Rattle.std.specs.Prelude.{◌≡◌, not, bit_or, ◌==◌};
ghost use Rattle.frame.specs.Views.{viewed};
ghost use Rattle.line.specs.Marks.{marks_number, marks_in};

use refusals::Refusal;

/// The marks that the line's receiver sets on a character.
#[derive(Clone, Copy, PartialEq, Eq, Debug)]
pub struct Marks {
    pub parity: bool,
    pub overrun: bool,
    pub framing: bool,
}

/// No mark above this sum.
const ALL: u8 = 7;

impl Marks {
    /// No mark.
    pub const NONE: Marks = Marks {
        parity: false,
        overrun: false,
        framing: false,
    };

    /// These and others together, each once.
    pub fn or(self, other: Marks) -> Marks
        ensures { marks_number result ≡ bit_or (marks_number self) (marks_number other) }
    {
        Marks {
            parity: self.parity || other.parity,
            overrun: self.overrun || other.overrun,
            framing: self.framing || other.framing,
        }
    }

    /// Whether there is any.
    pub fn any(self) -> bool
        ensures { result ≡ not (marks_number self == 0) }
    {
        self.parity || self.overrun || self.framing
    }
}

/// Of their sum in a byte: 1 parity, 2 overrun, 4 framing.
impl TryFrom<u8> for Marks {
    type Error = Refusal;

    ghost try_from_gives = { λ byte r. viewed marks_number r ≡ marks_in byte };

    fn try_from(byte: u8) -> Result<Marks, Refusal> {
        if byte > ALL {
            return Err(Refusal::Marks);
        }
        Ok(Marks {
            parity: byte % 2 == 1,
            overrun: byte / 2 % 2 == 1,
            framing: byte / 4 == 1,
        })
    }
}
