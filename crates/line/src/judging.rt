//! How a channel judges a transmission that means it.

ghost use Rattle.std.specs.Prelude.{◌≡◌, true, ◌^◌, ◌<◌};
ghost use Rattle.setpoint.specs.Refusals.{admitted_under};
ghost use Rattle.setpoint.specs.Value.{value_of};
ghost use Rattle.record.specs.Bytes.{number32};
ghost use Rattle.frame.specs.Views.{frame_parts};
ghost use Rattle.line.specs.Codes.{code_of, given?, weighed, FirstGiven};
ghost use Rattle.line.specs.Commands.{counted?};
ghost use Rattle.line.specs.Judgements.{judgement, Writable};
ghost use Rattle.line.specs.Views.{judged, reception};
ghost use Rattle.line.specs.declared.commands.Command.TheVariants.{WriteSetpoint};

use crate::accepted::AcceptedCommand;
use crate::allotting::Allotting;
use crate::codes::ResponseCode;
use crate::commands::Command;
use crate::judgements::Judgement;
use crate::reception::Received;
use frame::Frame;
use record::{Fields, MAX_POLLING_ADDRESS, MAX_PREAMBLES, MIN_PREAMBLES};

/// The unit code of percent.
pub(crate) const PERCENT: u8 = 0x39;

/// Judges a whole transmission that means a channel with these fields. Nothing is written here.
pub fn judge<'a, A: Allotting>(
    received: Received<'_>,
    frame: Frame<'a>,
    fields: Fields,
    allotting: &A,
) -> Judgement<'a>
    ensures value { judged result
        ≡ judgement (reception received.entry) (frame_parts frame.entry) fields
        (A.allotment allotting.now) }
    ensures writable { Writable (judged result) fields }
{
    if !received.is_sound() {
        return Judgement::CommunicationError(received.error_status());
    }
    let command = Command::try_from(frame.command).ok();
    let code = response_code(command, frame.data, fields, allotting);
    match command {
        Some(command) if code == ResponseCode::Success => Judgement::Accepted(AcceptedCommand {
            command,
            data: frame.data,
        }),
        _ => Judgement::Refused(code),
    }
}

/// The response code of a sound request to a channel, by one `match`: its arms stand in the order in
/// which codes are tried. Of command and data, and not of a frame, whose address and check have no part
/// in it.
pub fn response_code<A: Allotting>(
    command: Option<Command>,
    data: &[u8],
    fields: Fields,
    allotting: &A,
) -> ResponseCode
    ensures value { result ≡ code_of command «data».now fields (A.allotment allotting.now) }
    ensures first { FirstGiven (given? command «data».now fields (A.allotment allotting.now))
        result }
{
    match command {
        None => ResponseCode::NotImplemented,
        Some(command) if !command.takes(data) => ResponseCode::ByteCount,
        Some(command) if command.writes() && !fields.key_open => ResponseCode::WriteProtected,
        Some(Command::WritePollingAddress) if data[0] > MAX_POLLING_ADDRESS => {
            ResponseCode::InvalidSelection
        }
        Some(Command::WritePreambles) if data[0] < MIN_PREAMBLES => ResponseCode::TooSmall,
        Some(Command::WritePreambles) if data[0] > MAX_PREAMBLES => ResponseCode::TooLarge,
        Some(Command::WriteSetpoint) if data[0] != PERCENT => ResponseCode::InvalidSelection,
        Some(Command::WriteSetpoint) => setpoint_code(data, fields, allotting),
        Some(_) => ResponseCode::Success,
    }
}

/// The code of a setpoint in percent, behind its unit code: as the rack refuses, then as its share is
/// weighed.
fn setpoint_code<A: Allotting>(data: &[u8], fields: Fields, allotting: &A) -> ResponseCode
    requires { counted? WriteSetpoint «data».now ≡ true }
    ensures { result
        ≡ weighed (A.allotment allotting.now) fields.full_scale
        (admitted_under fields.ceiling (value_of (number32 «data».now 1))) }
{
    let pattern = u32::from_be_bytes([data[1], data[2], data[3], data[4]]);
    match setpoint::admitted(pattern, fields.ceiling) {
        Err(refusal) => refusal.into(),
        Ok(load) if allotting.fits(setpoint::share(load, fields.full_scale)) =>
            ResponseCode::Success,
        Ok(_) => ResponseCode::AccessRestricted,
    }
}
