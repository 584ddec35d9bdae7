//! Why a recording was not played to its end.

ghost use Rattle.std.specs.Prelude.{◌≡◌};
ghost use Rattle.std.specs.IoError.{error_kind};
ghost use Rattle.stream.specs.Interruptions.{words_of};
ghost use Rattle.stream.specs.declared.interruption.Interruption.TheVariants.{Memory, Stream};

use std::alloc::AllocError;
use std::error::Error;
use std::{fmt, io};

/// Why a recording was not played to its end.
#[derive(Clone, Copy, Debug)]
pub enum Interruption {
    /// Memory was short for a line.
    Memory(AllocError),
    /// The input could not be read, or the output not written. An `io::Error` is large, and a result is handed on at each event.
    Stream(io::ErrorKind),
    /// More events than can be counted.
    Endless,
}

impl From<AllocError> for Interruption {
    ghost from_gives = { λ e r. r ≡ Memory e };

    fn from(e: AllocError) -> Interruption {
        Interruption::Memory(e)
    }
}

impl From<io::Error> for Interruption {
    ghost from_gives = { λ e r. r ≡ Stream (error_kind e) };

    fn from(e: io::Error) -> Interruption {
        Interruption::Stream(e.kind())
    }
}

impl fmt::Display for Interruption {
    ghost output = { words_of };

    fn fmt<W: fmt::Write>(&self, f: &mut fmt::Formatter<W>) -> fmt::Result {
        match self {
            Interruption::Memory(e) => write!(f, "{e}"),
            Interruption::Stream(kind) => write!(f, "{kind}"),
            Interruption::Endless => write!(f, "the recording has more events than can be counted"),
        }
    }
}

impl Error for Interruption {}
