//! Bytes as capital hexadecimal text.
#![tactic(auto)]

ghost use Rattle.std.specs.Prelude.{◌≡◌, ◌*◌, ◌<◌, ◌≤◌, [], ◌++◌, take, length, if◌then◌else◌, is_ok, IfSome, IfOk, OnOk, Some, string_bytes};
ghost use Rattle.std.specs.List.{list_all};
ghost use Rattle.hexdigits.specs.declared.HexFault.TheVariants.{NotHex, Memory};
ghost use Rattle.hexdigits.specs.Hex.{digit_of, hex_of, value_of, byte_of, pair?, bytes_of};
ghost use Rattle.hexdigits.specs.Answers.{Reads, words_of};

use std::alloc::{AllocError, AllocFailed, Global};
use std::error::Error;
use std::fmt;

// How many bytes are printed at once: the room that an answer is given, so that each answer is one part.
const PART_LENGTH: usize = 64;

const PART_DIGITS: usize = 2 * PART_LENGTH;

/// Why no bytes were read.
#[derive(Clone, Copy, PartialEq, Eq, Debug)]
pub enum HexFault {
    /// Not two capital digits for each byte.
    NotHex,
    Memory,
}

impl fmt::Display for HexFault {
    ghost output = { λ fault. Some (words_of fault) };

    fn fmt<W: fmt::Write>(&self, f: &mut fmt::Formatter<W>) -> fmt::Result {
        match self {
            HexFault::NotHex => f.write_str("not capital hexadecimal"),
            HexFault::Memory => f.write_str("no memory"),
        }
    }
}

impl Error for HexFault {}

impl<T: Drop> From<AllocFailed<T>> for HexFault {
    ghost from_gives = { λ _ r. r ≡ Memory };

    fn from(_refused: AllocFailed<T>) -> HexFault {
        Self::Memory
    }
}

/// Bytes, printed as two digits each.
#[derive(Clone, Copy)]
pub struct Hex<'a>(pub &'a [u8]);

impl fmt::Display for Hex<'_> {
    ghost output = { λ hex. Some (hex_of hex.0.now) };

    fn fmt<W: fmt::Write>(&self, f: &mut fmt::Formatter<W>) -> fmt::Result {
        for byte in self.0 {
            f.write_char(char::from(digit(byte / 16)))?;
            f.write_char(char::from(digit(byte % 16)))?;
        }
        Ok(())
    }
}

// The digit of a number below 16.
fn digit(n: u8) -> u8
    requires { n < 16 }
    ensures { result ≡ digit_of n }
{
    if n < 10 { b'0' + n } else { b'A' + (n - 10) }
}

// The number of a digit, if it is one.
fn value(c: u8) -> Option<u8>
    ensures value { result ≡ value_of c }
    ensures bound { IfSome result (λ v. v < 16) }
{
    match c {
        b'0'..=b'9' => Some(c - b'0'),
        b'A'..=b'F' => Some(c - b'A' + 10),
        _ => None,
    }
}

/// The byte of two digits, if they are.
pub fn byte(high: u8, low: u8) -> Option<u8>
    ensures { result ≡ byte_of high low }
{
    Some(value(high)? * 16 + value(low)?)
}

/// The digits of `bytes`, which read back to them.
pub fn to_hex(heap: Global, bytes: &[u8]) -> Result<String, AllocError>
    ensures text { IfOk result (λ text. string_bytes text ≡ hex_of bytes.now) }
    ensures back { bytes_of (hex_of bytes.now) ≡ Some bytes.now }
{
    // By parts: a formatter takes some fifty steps for each digit.
    let mut text = Vec::with_capacity(heap, 2 * bytes.len())?;
    push_hex(&mut text, bytes)?;
    match String::from_utf8(text) {
        Ok(text) => Ok(text),
        Err(_) => unreachable!(),
    }
}

/// Appends the digits of `bytes`, which read back to them; where memory is short, the text is as it was.
pub fn push_hex(text: &mut Vec<u8>, bytes: &[u8]) -> Result<(), AllocError>
    ensures text { text.new.items ≡
        text.old.items ++ (if is_ok result then hex_of bytes.now else []) }
    ensures front { take (length text.old.items) text.new.items ≡ text.old.items }
    ensures back { bytes_of (hex_of bytes.now) ≡ Some bytes.now }
{
    let length = text.len();
    let pushed = push_parts(text, bytes);
    if pushed.is_err() {
        text.truncate(length);
    }
    pushed
}

// Appends the digits of `bytes`; where memory is short, some of them. By parts: for room is asked once for each, not for each
// digit.
fn push_parts(text: &mut Vec<u8>, bytes: &[u8]) -> Result<(), AllocError>
    ensures text { OnOk result (text.new.items ≡ text.old.items ++ hex_of bytes.now) }
    ensures front { take (length text.old.items) text.new.items ≡ text.old.items }
{
    let mut digits = [0; PART_DIGITS];
    let mut rest = bytes;
    while !rest.is_empty() {
        let (part, after) = rest.split_at(rest.len().min(PART_LENGTH));
        put_digits(part, &mut digits);
        text.extend_from_slice(&digits[..2 * part.len()])?;
        rest = after;
    }
    Ok(())
}

// Writes the digits of a part in front.
fn put_digits(part: &[u8], digits: &mut [u8; PART_DIGITS])
    requires { length part.now ≤ 64 }
    ensures { take (2 * length part.now) digits.new ≡ hex_of part.now }
{
    for (i, byte) in part.iter().enumerate() {
        digits[2 * i] = digit(byte / 16);
        digits[2 * i + 1] = digit(byte % 16);
    }
}

fn all_bytes(pairs: &[[u8; 2]]) -> bool
    ensures { result ≡ list_all pair? pairs.now }
{
    pairs.iter().all(|pair| byte(pair[0], pair[1]).is_some())
}

// Why bytes were not kept for which there was no memory: want of it is told only of a text that is hexadecimal.
fn not_kept(pairs: &[[u8; 2]]) -> HexFault
    ensures { result ≡ (if list_all pair? pairs.now then Memory else NotHex) }
{
    if all_bytes(pairs) {
        HexFault::Memory
    } else {
        HexFault::NotHex
    }
}

/// Reads the bytes of a hexadecimal text.
pub fn parse_hex(heap: Global, text: &[u8]) -> Result<Vec<u8>, HexFault>
    ensures { Reads (bytes_of text.now) result }
{
    let (pairs, rest) = text.as_chunks::<2>();
    if !rest.is_empty() {
        return Err(HexFault::NotHex);
    }
    let mut bytes = Vec::new(heap);
    for pair in pairs {
        let [high, low] = *pair;
        let Ok(()) = bytes.push(byte(high, low).ok_or(HexFault::NotHex)?) else {
            return Err(not_kept(pairs));
        };
    }
    Ok(bytes)
}

#[cfg(test)]
mod tests {
    use super::*;
    use std::fmt::Write;
    use std::test::Fail;

    #[test]
    fn both_ways(rt: HostRuntime) -> Result<(), Fail> {
        let text = to_hex(rt.alloc(), &[0x00, 0xA5, 0xFF])?;
        assert_eq!(rt; text.as_str(), "00A5FF");
        let bytes = parse_hex(rt.alloc(), text.as_str().as_bytes())?;
        assert_eq!(rt; bytes.as_slice(), [0x00u8, 0xA5, 0xFF].as_slice());
        Ok(())
    }

    #[test]
    fn not_hex(rt: HostRuntime) {
        assert!(rt; matches!(parse_hex(rt.alloc(), b"A5F"), Err(HexFault::NotHex)));
        assert!(rt; matches!(parse_hex(rt.alloc(), b"a5"), Err(HexFault::NotHex)));
        assert_eq!(rt; byte(b'4', b'G'), None);
    }

    // A writer that has no room.
    #[derive(Drop)]
    struct Full;

    impl fmt::Write for Full {
        fn write_str(&mut self, _: &str) -> fmt::Result {
            Err(fmt::Error)
        }
    }

    #[test]
    fn a_writer_that_fails(rt: HostRuntime) {
        assert!(rt; write!(Full, "{}", HexFault::NotHex).is_err());
        assert!(rt; write!(Full, "{}", Hex(&[0xA5])).is_err());
    }
}
