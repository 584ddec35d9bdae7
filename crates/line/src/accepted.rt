//! A command with data of its count.

ghost use Rattle.std.specs.Prelude.{◌≡◌, true};
ghost use Rattle.line.specs.Commands.{counted?};

use crate::changes::{Changes, changes_of};
use crate::commands::Command;

/// A command that was accepted, with its data: of the count that it asks for, or any where it reads. A
/// judgement makes it.
#[derive(Clone, Copy)]
pub struct AcceptedCommand<'a> {
    pub(crate) command: Command,
    pub(crate) data: &'a [u8],
    pub ghost counted: { counted? command «data».now ≡ true },
}

impl<'a> AcceptedCommand<'a> {
    ghost use Rattle.line.specs.Edits.{edits_of};
    ghost use Rattle.line.specs.Views.{edits_in};

    /// What it writes, in this order.
    pub fn changes(self) -> Changes<'a>
        ensures { edits_in result ≡ edits_of self.entry.command self.entry.«data».now }
    {
        changes_of(self.command, self.data)
    }
}
