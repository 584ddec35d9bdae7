//! What an accepted command writes.

ghost use Rattle.std.specs.Prelude.{◌≡◌, true, [], ◌∷◌};
ghost use Rattle.rack.specs.Edits.{changed, edit_of};
ghost use Rattle.line.specs.Commands.{counted?};
ghost use Rattle.line.specs.Edits.{edits_of};
ghost use Rattle.line.specs.Views.{edits_in};

use crate::commands::Command;
use rack::Change;
use record::{LABELS, MESSAGE};

/// What a command writes, in this order.
#[derive(Clone, Copy)]
pub struct Changes<'a> {
    /// The value of a field, from the command's data.
    pub field: Option<Change<'a>>,
    /// What becomes of the changed flag.
    pub flag: Option<Change<'a>>,
}

impl<'a> Changes<'a> {
    const NONE: Changes<'static> = Changes {
        field: None,
        flag: None,
    };

    /// The value of a field, and the flag set.
    fn noted(field: Change<'a>) -> Changes<'a>
        ensures { edits_in result ≡ edit_of field.entry ∷ changed true ∷ [] }
    {
        Changes {
            field: Some(field),
            flag: Some(Change::Changed(true)),
        }
    }
}

/// What a command writes from data of its count.
pub(crate) fn changes_of<'a>(command: Command, data: &'a [u8]) -> Changes<'a>
    requires { counted? command «data».now ≡ true }
    ensures { edits_in result ≡ edits_of command «data».now }
{
    match command {
        Command::WritePollingAddress => Changes::noted(Change::PollingAddress(data[0])),
        Command::WritePreambles => Changes::noted(Change::Preambles(data[0])),
        Command::WriteMessage => Changes::noted(Change::Text {
            place: MESSAGE.start,
            bytes: data,
        }),
        Command::WriteTagDescriptorDate => Changes::noted(Change::Text {
            place: LABELS.start,
            bytes: data,
        }),
        Command::WriteAssemblyNumber => Changes::noted(Change::AssemblyNumber(u32::from_be_bytes([
            0, data[0], data[1], data[2],
        ]))),
        Command::WriteSetpoint => Changes {
            field: Some(Change::Setpoint(u32::from_be_bytes([data[1], data[2], data[3], data[4]]))),
            flag: None,
        },
        Command::ResetConfigurationChanged => Changes {
            field: None,
            flag: Some(Change::Changed(false)),
        },
        // The others read.
        _ => Changes::NONE,
    }
}
