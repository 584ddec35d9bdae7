//! The refusals of the panel's calls. A refused call changes nothing.
#![tactic(auto)]

ghost use Rattle.std.specs.Prelude.{◌≡◌, Some};
ghost use Rattle.refusals.specs.Refusals.{number_of, words_of};

use std::error::Error;
use std::fmt;

/// Why a call was refused, with the number by which programs and documents name the refusal.
#[derive(Clone, Copy, PartialEq, Eq, Debug)]
pub enum Refusal {
    /// There is no such channel.
    NoChannel = 101,
    /// The lent buffer is shorter than what would be written.
    ShortBuffer = 102,
    /// A record of a file has a field out of range.
    BadRecord = 103,
    /// A file is not of 1 to 15 records, or a rack tells more than 15.
    NumberOfRecords = 104,
    /// Two channels have the same device type and identification number.
    SameIdentity = 105,
    /// The shares of the channels do not fit the supply.
    OverSupply = 106,
    /// The supply is larger than any header gives.
    Supply = 107,
    /// A flow or a temperature is not finite.
    Reading = 108,
    /// A character's marks are above 7: there are only parity, 1, overrun, 2, and framing, 4.
    Marks = 109,
    /// The input is not in the form that the call asks for.
    OutOfForm = 110,
}

impl Refusal {
    /// The number by which programs and documents name the refusal.
    pub fn number(self) -> u8
        ensures { result ≡ number_of self }
    {
        self as u8
    }

    /// The words by which it is printed.
    pub fn words(self) -> &'static str
        ensures { result.now ≡ words_of self }
    {
        match self {
            Refusal::NoChannel => "no channel",
            Refusal::ShortBuffer => "short buffer",
            Refusal::BadRecord => "bad record",
            Refusal::NumberOfRecords => "number of records",
            Refusal::SameIdentity => "same identity",
            Refusal::OverSupply => "over supply",
            Refusal::Supply => "supply",
            Refusal::Reading => "reading",
            Refusal::Marks => "marks",
            Refusal::OutOfForm => "out of form",
        }
    }
}

impl fmt::Display for Refusal {
    ghost output = { λ r. Some (words_of r) };

    fn fmt<W: fmt::Write>(&self, f: &mut fmt::Formatter<W>) -> fmt::Result {
        f.write_str(self.words())
    }
}

impl Error for Refusal {}

#[cfg(test)]
mod tests {
    use super::*;
    use std::fmt::Write;

    // A writer that takes four bytes and fails at the first one more.
    #[derive(Drop)]
    struct Narrow {
        taken: [u8; 4],
        length: usize,
    }

    impl fmt::Write for Narrow {
        fn write_str(&mut self, text: &str) -> fmt::Result {
            for byte in text.as_bytes() {
                if self.length >= 4 {
                    return Err(fmt::Error);
                }
                self.taken[self.length] = *byte;
                self.length += 1;
            }
            Ok(())
        }
    }

    #[test]
    fn a_writer_that_fails(rt: HostRuntime) {
        let mut narrow = Narrow {
            taken: [0; 4],
            length: 0,
        };
        assert!(rt; write!(narrow, "{}", Refusal::Supply).is_err());
        assert_eq!(rt; narrow.taken, *b"supp");
    }
}
