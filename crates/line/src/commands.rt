//! The commands that a channel knows.

ghost use Rattle.std.specs.Prelude.{◌≡◌, Some, codes};
ghost use Rattle.std.specs.Result.{result_ok};
ghost use Rattle.line.specs.Commands.{number_of, count_of, writes?, counted?, command_of};

use record::{LABELS, MESSAGE};
use std::error::Error;
use std::fmt;

/// A command that a channel knows, by its name in the protocol.
#[derive(Clone, Copy, PartialEq, Eq, Debug)]
pub enum Command {
    ReadUniqueIdentifier = 0,
    ReadPrimaryVariable = 1,
    WritePollingAddress = 6,
    ReadUniqueIdentifierByTag = 11,
    ReadMessage = 12,
    ReadTagDescriptorDate = 13,
    ReadAssemblyNumber = 16,
    WriteMessage = 17,
    WriteTagDescriptorDate = 18,
    WriteAssemblyNumber = 19,
    ResetConfigurationChanged = 38,
    WritePreambles = 59,
    ReadSetpoint = 235,
    WriteSetpoint = 236,
}

impl Command {
    /// The number that stands for it in a frame.
    pub fn number(self) -> u8
        ensures { result ≡ number_of self }
    {
        self as u8
    }

    /// How many data bytes it asks for, if it writes. One that reads takes whatever data come with
    /// it.
    pub fn count(self) -> Option<usize>
        ensures { result ≡ count_of self }
    {
        match self {
            Command::ResetConfigurationChanged => Some(0),
            Command::WritePollingAddress | Command::WritePreambles => Some(1),
            Command::WriteAssemblyNumber => Some(3),
            Command::WriteSetpoint => Some(5),
            Command::WriteTagDescriptorDate => Some(LABELS.len()),
            Command::WriteMessage => Some(MESSAGE.len()),
            Command::ReadUniqueIdentifier
            | Command::ReadPrimaryVariable
            | Command::ReadUniqueIdentifierByTag
            | Command::ReadMessage
            | Command::ReadTagDescriptorDate
            | Command::ReadAssemblyNumber
            | Command::ReadSetpoint => None,
        }
    }

    /// Whether data have the count that it asks for.
    pub fn takes(self, data: &[u8]) -> bool
        ensures { result ≡ counted? self «data».now }
    {
        self.count().is_none_or(|count| data.len() == count)
    }

    /// Whether it writes, under the key.
    pub fn writes(self) -> bool
        ensures { result ≡ writes? self }
    {
        self.count().is_some()
    }
}

/// A number of no command that a channel knows.
#[derive(Clone, Copy, PartialEq, Eq, Debug)]
pub struct UnknownCommand;

impl TryFrom<u8> for Command {
    type Error = UnknownCommand;

    ghost try_from_gives = { λ number r. result_ok r ≡ command_of number };

    fn try_from(number: u8) -> Result<Command, UnknownCommand> {
        match number {
            0 => Ok(Command::ReadUniqueIdentifier),
            1 => Ok(Command::ReadPrimaryVariable),
            6 => Ok(Command::WritePollingAddress),
            11 => Ok(Command::ReadUniqueIdentifierByTag),
            12 => Ok(Command::ReadMessage),
            13 => Ok(Command::ReadTagDescriptorDate),
            16 => Ok(Command::ReadAssemblyNumber),
            17 => Ok(Command::WriteMessage),
            18 => Ok(Command::WriteTagDescriptorDate),
            19 => Ok(Command::WriteAssemblyNumber),
            38 => Ok(Command::ResetConfigurationChanged),
            59 => Ok(Command::WritePreambles),
            235 => Ok(Command::ReadSetpoint),
            236 => Ok(Command::WriteSetpoint),
            _ => Err(UnknownCommand),
        }
    }
}

impl fmt::Display for UnknownCommand {
    ghost output = { λ _. Some (codes "unknown command") };

    fn fmt<W: fmt::Write>(&self, f: &mut fmt::Formatter<W>) -> fmt::Result {
        f.write_str("unknown command")
    }
}

impl Error for UnknownCommand {}

#[cfg(test)]
mod tests {
    use super::*;
    use std::fmt::Write;

    // A writer that takes four bytes and fails at the first one more.
    #[derive(Drop)]
    struct Narrow {
        taken: [u8; 4],
        length: usize,
    }

    impl fmt::Write for Narrow {
        fn write_str(&mut self, text: &str) -> fmt::Result {
            for byte in text.as_bytes() {
                if self.length >= 4 {
                    return Err(fmt::Error);
                }
                self.taken[self.length] = *byte;
                self.length += 1;
            }
            Ok(())
        }
    }

    #[test]
    fn a_writer_that_fails(rt: HostRuntime) {
        let mut narrow = Narrow {
            taken: [0; 4],
            length: 0,
        };
        assert!(rt; write!(narrow, "{}", UnknownCommand).is_err());
        assert_eq!(rt; narrow.taken, *b"unkn");
    }
}
