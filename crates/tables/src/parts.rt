//! Bytes, letters, masters and widths of addresses as they are printed.

ghost use Rattle.std.specs.Prelude.{Some};
ghost use Rattle.std.specs.Str.{encode_utf8_all};
ghost use Rattle.tables.specs.Parts.{spaced_hex, master_words, width_words};

use frame::{Address, Master};
use hexdigits::Hex;
use std::fmt;

/// Bytes, printed as two hexadecimal digits each, with a space between.
#[derive(Clone, Copy)]
pub struct SpacedHex<'a>(pub &'a [u8]);

impl fmt::Display for SpacedHex<'_> {
    ghost output = { λ hex. Some (spaced_hex hex.0.now) };

    fn fmt<W: fmt::Write>(&self, f: &mut fmt::Formatter<W>) -> fmt::Result {
        let Some((first, rest)) = self.0.split_first() else {
            return Ok(());
        };
        write!(f, "{}", Hex(&[*first]))?;
        for byte in rest {
            write!(f, " {}", Hex(&[*byte]))?;
        }
        Ok(())
    }
}

/// Letters of unpacked text, printed as one character each.
#[derive(Clone, Copy)]
pub struct Letters<'a>(pub &'a [u8]);

impl fmt::Display for Letters<'_> {
    ghost output = { λ letters. Some (encode_utf8_all letters.0.now) };

    fn fmt<W: fmt::Write>(&self, f: &mut fmt::Formatter<W>) -> fmt::Result {
        for letter in self.0 {
            f.write_char(char::from(*letter))?;
        }
        Ok(())
    }
}

/// A master, printed as a word.
#[derive(Clone, Copy)]
pub struct MasterName(pub Master);

impl fmt::Display for MasterName {
    ghost output = { λ name. Some (master_words name.0) };

    fn fmt<W: fmt::Write>(&self, f: &mut fmt::Formatter<W>) -> fmt::Result {
        match self.0 {
            Master::Secondary => f.write_str("secondary"),
            Master::Primary => f.write_str("primary"),
        }
    }
}

/// The width of an address, printed as a word.
#[derive(Clone, Copy)]
pub struct Width(pub Address);

impl fmt::Display for Width {
    ghost output = { λ width. Some (width_words width.0) };

    fn fmt<W: fmt::Write>(&self, f: &mut fmt::Formatter<W>) -> fmt::Result {
        match self.0 {
            Address::Short(_) => f.write_str("short"),
            Address::Long(_) => f.write_str("long"),
        }
    }
}
