//! Words of a table of calls: bytes and patterns in capital hexadecimal, and '-' where there are no bytes.

ghost use Rattle.std.specs.Prelude.{◌≡◌, IfOk, Some, string_bytes};
ghost use Rattle.hexdigits.specs.Answers.{Reads as ReadsHex};
ghost use Rattle.tables.specs.Words.{word_of, bytes_at, maybe_empty_at, pattern_at, pattern_joined};
ghost use Rattle.tables.specs.Answers.{Reads, told_of, words_of};

use hexdigits::{HexFault, byte, parse_hex, to_hex};
use std::alloc::{AllocError, Global};
use std::error::Error;
use std::fmt;

/// What stands in a buffer before a call writes into it.
pub const UNTOUCHED: u8 = 0xA5;

const _: () = prove!(UNTOUCHED == 0xA5);

/// Why a word was not read. Not a `HexFault`: a word that is no pattern is told apart, and the words of a message are others.
#[derive(Clone, Copy, PartialEq, Eq, Debug)]
pub enum WordFault {
    /// Neither '-' nor two capital digits for each byte.
    NotBytes,
    /// Not eight capital digits.
    NotPattern,
    Memory,
}

impl fmt::Display for WordFault {
    ghost output = { λ fault. Some (words_of fault) };

    fn fmt<W: fmt::Write>(&self, f: &mut fmt::Formatter<W>) -> fmt::Result {
        match self {
            WordFault::NotBytes => f.write_str("a word that is no bytes"),
            WordFault::NotPattern => f.write_str("a word that is no pattern"),
            WordFault::Memory => f.write_str("no memory"),
        }
    }
}

impl Error for WordFault {}

impl From<HexFault> for WordFault {
    ghost from_gives = { λ e r. r ≡ told_of e };

    fn from(e: HexFault) -> WordFault {
        match e {
            HexFault::NotHex => WordFault::NotBytes,
            HexFault::Memory => WordFault::Memory,
        }
    }
}

/// The bytes of a word.
pub fn to_bytes(heap: Global, word: &str) -> Result<Vec<u8>, WordFault>
    ensures { Reads (bytes_at word.now) result }
{
    match word {
        "-" => Ok(Vec::new(heap)),
        "" => Err(WordFault::NotBytes),
        digits => Ok(parse_hex(heap, digits.as_bytes())?),
    }
}

/// The bytes of a word that may also be empty. The fault of another is that of its digits.
pub fn bytes_of(heap: Global, word: &str) -> Result<Vec<u8>, HexFault>
    ensures { ReadsHex (maybe_empty_at word.now) result }
{
    match word {
        "-" | "" => Ok(Vec::new(heap)),
        digits => parse_hex(heap, digits.as_bytes()),
    }
}

/// The 32 bits of a word of eight digits.
pub fn to_pattern(word: &str) -> Result<u32, WordFault>
    ensures { result ≡ pattern_at word.now }
{
    match word.as_bytes() {
        [a, b, c, d, e, f, g, h] => joined(
            byte(*a, *b),
            byte(*c, *d),
            byte(*e, *f),
            byte(*g, *h),
        ).ok_or(WordFault::NotPattern),
        _ => Err(WordFault::NotPattern),
    }
}

/// The word of bytes, which reads back to them.
pub fn from_bytes(heap: Global, bytes: &[u8]) -> Result<String, AllocError>
    ensures word { IfOk result (λ word. string_bytes word ≡ word_of bytes.now) }
    ensures back { bytes_at (word_of bytes.now) ≡ Some bytes.now }
{
    if bytes.is_empty() {
        return String::from_str(heap, "-");
    }
    to_hex(heap, bytes)
}

// The 32 bits of four bytes, the highest first, if all are there.
fn joined(
    first: Option<u8>,
    second: Option<u8>,
    third: Option<u8>,
    fourth: Option<u8>,
) -> Option<u32>
    ensures { result ≡ pattern_joined first second third fourth }
{
    Some(u32::from_be_bytes([first?, second?, third?, fourth?]))
}

#[cfg(test)]
mod tests {
    use super::*;
    use std::fmt::Write;

    // A writer that has no room.
    #[derive(Drop)]
    struct Full;

    impl fmt::Write for Full {
        fn write_str(&mut self, _: &str) -> fmt::Result {
            Err(fmt::Error)
        }
    }

    #[test]
    fn a_writer_that_fails(rt: HostRuntime) {
        assert!(rt; write!(Full, "{}", WordFault::NotBytes).is_err());
        assert!(rt; write!(Full, "{}", WordFault::NotPattern).is_err());
        assert!(rt; write!(Full, "{}", WordFault::Memory).is_err());
    }
}
