//! Transmissions, part by part.

use std::io;
use tables::SpacedHex;

// How many bytes a part of a transmission has, and what it is.
#[derive(Clone, Copy)]
pub(crate) struct Part(pub(crate) usize, pub(crate) &'static str);

// Prints a transmission part by part, as far as it goes.
pub(crate) fn show_parts(rt: &HostRuntime, bytes: &[u8], parts: &[Part]) -> io::Result<()> {
    let mut rest = bytes;
    for Part(length, meaning) in parts {
        let Some((part, after)) = rest.split_at_checked(*length) else {
            return Ok(());
        };
        println!(rt; "     {}   {meaning}", SpacedHex(part))?;
        rest = after;
    }
    Ok(())
}
