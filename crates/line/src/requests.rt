//! What a request asks.

ghost use Rattle.std.specs.Prelude.{◌≡◌};
ghost use Rattle.line.specs.Requests.{asked_by};
ghost use Rattle.line.specs.Views.{seen};

use crate::commands::Command;
use record::TAG;

/// What a request asks; its bytes are parts of the received ones.
#[derive(Clone, Copy)]
pub enum Request<'a> {
    /// Which channel has this tag.
    TagQuestion(&'a [u8]),
    TextWrite { command: Command, text: &'a [u8] },
    NumberWrite { command: Command, number: &'a [u8] },
    /// Any other command, known or not, by its number.
    Bare(u8),
}

impl<'a> Request<'a> {
    /// The request of a command's number with its data, whatever their count.
    pub fn of(number: u8, data: &'a [u8]) -> Request<'a>
        ensures { seen result ≡ asked_by number «data».now }
    {
        let Ok(command) = Command::try_from(number) else {
            return Request::Bare(number);
        };
        match command {
            Command::ReadUniqueIdentifierByTag if data.len() == TAG.len() => Request::TagQuestion(
                data,
            ),
            Command::WriteMessage | Command::WriteTagDescriptorDate => {
                Request::TextWrite {
                    command,
                    text: data,
                }
            }
            Command::WritePollingAddress
            | Command::WriteAssemblyNumber
            | Command::WritePreambles
            | Command::WriteSetpoint => Request::NumberWrite {
                command,
                number: data,
            },
            _ => Request::Bare(number),
        }
    }
}
