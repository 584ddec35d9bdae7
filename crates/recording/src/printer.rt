//! The lines of results.

ghost use Rattle.std.specs.Prelude.{◌≡◌, [], ◌++◌, take, length, decimal, is_ok, IsOk, OnOk};
ghost use Rattle.refusals.specs.Refusals.{number_of};
ghost use Rattle.calls.specs.Views.{result_of};
ghost use Rattle.recording.specs.Lines.{refusal_line, answer_line, line_of, with_line};

use calls::Response;
use hexdigits::push_hex;
use refusals::Refusal;
use std::alloc::AllocError;

/// Appends the line of a response, or changes nothing where memory is short.
///
/// Digit by digit, and no `Display`: a formatter would cost more than all else that comes of a gap.
#[inline(always)]
pub fn push_line(
    lines: &mut Vec<u8>,
    response: Result<Response<'_>, Refusal>,
) -> Result<(), AllocError>
    ensures line { lines.new.items
        ≡ with_line (is_ok result) (line_of (result_of response.entry)) lines.old.items }
    ensures free { line_of (result_of response.entry) ≡ [] → IsOk result }
{
    let start = lines.len();
    let pushed = match response {
        // Most calls have no line.
        Ok(Response::Taken) => return Ok(()),
        Ok(Response::Silent) => return lines.extend_from_slice(b"silent\n"),
        Ok(Response::Answered { channel, bytes }) => push_answer(lines, channel, bytes),
        Err(refusal) => push_refusal(lines, refusal),
    };
    if pushed.is_err() {
        // No part of a line stays.
        lines.truncate(start);
    }
    pushed
}

// Appends the line of an answer, or a part of it.
fn push_answer(lines: &mut Vec<u8>, channel: u8, bytes: &[u8]) -> Result<(), AllocError>
    ensures line { OnOk result
        (lines.new.items ≡ lines.old.items ++ answer_line channel bytes.now) }
    ensures front { take (length lines.old.items) lines.new.items ≡ lines.old.items }
{
    push_number(lines, channel)?;
    lines.push(b' ')?;
    push_hex(lines, bytes)?;
    lines.push(b'\n')?;
    Ok(())
}

// The same of a refusal.
fn push_refusal(lines: &mut Vec<u8>, refusal: Refusal) -> Result<(), AllocError>
    ensures line { OnOk result
        (lines.new.items ≡ lines.old.items ++ refusal_line (number_of refusal)) }
    ensures front { take (length lines.old.items) lines.new.items ≡ lines.old.items }
{
    lines.extend_from_slice(b"refused ")?;
    push_number(lines, refusal.number())?;
    lines.push(b'\n')?;
    Ok(())
}

// Appends a number in decimal, or a part of it.
fn push_number(line: &mut Vec<u8>, number: u8) -> Result<(), AllocError>
    ensures line { OnOk result (line.new.items ≡ line.old.items ++ decimal number) }
    ensures front { take (length line.old.items) line.new.items ≡ line.old.items }
{
    if number >= 100 {
        line.push(b'0' + number / 100)?;
    }
    if number >= 10 {
        line.push(b'0' + number / 10 % 10)?;
    }
    line.push(b'0' + number % 10)?;
    Ok(())
}
