//! Reads frames and transmissions.

ghost use Rattle.std.specs.Prelude.{◌≡◌, ◌≤◌, length, OnOk};
ghost use Rattle.frame.specs.Frames.{request_frame, start_frame, frame_after, longest_frame};
ghost use Rattle.frame.specs.Transmissions.{preambles_of, read_sent, read_request, read_reply};
ghost use Rattle.frame.specs.Views.{address_bytes, frame_parts, request_parts, viewed, FrameMeans, RequestMeans, ReplyMeans, SentAgain};

use crate::{
    Address, Frame, MIN_PREAMBLES, PREAMBLE, REPLY, REQUEST, StartBytes, Transmission, check,
};
use refusals::Refusal;

/// Reads a request from the bytes of its transmission, of which the data are a part: 110 unless they are sound.
pub fn read_request(bytes: &[u8]) -> Result<Transmission<'_>, Refusal>
    ensures value { viewed request_parts result ≡ read_request bytes.now }
    ensures means { RequestMeans result bytes.now }
    ensures again { SentAgain result bytes.now }
{
    read(REQUEST, bytes)
}

/// Reads a reply in the same way. Its data begin with the two status bytes.
pub fn read_reply(bytes: &[u8]) -> Result<Transmission<'_>, Refusal>
    ensures value { viewed request_parts result ≡ read_reply bytes.now }
    ensures means { ReplyMeans result bytes.now }
{
    read(REPLY, bytes)
}

/// Reads a request's frame from the bytes that begin with its start byte: 110 unless it is whole. Its check is not judged
/// here.
pub fn read_frame(span: &[u8]) -> Result<Frame<'_>, Refusal>
    ensures value { viewed frame_parts result ≡ request_frame span.now }
    ensures means { FrameMeans result span.now }
    ensures limit { OnOk result (length span.now ≤ longest_frame) }
{
    frame_in(REQUEST, span)
}

// Reads a transmission of a kind of frame.
fn read(kind: StartBytes, bytes: &[u8]) -> Result<Transmission<'_>, Refusal>
    ensures { viewed request_parts result ≡ read_sent kind.short kind.long bytes.now }
{
    let preambles = count_preambles(bytes);
    let span = &bytes[preambles..];
    if preambles < MIN_PREAMBLES || check(span) != 0 {
        return Err(Refusal::OutOfForm);
    }
    let frame = frame_in(kind, span)?;
    Ok(Transmission {
        preambles,
        address: frame.address,
        command: frame.command,
        data: frame.data,
    })
}

// The frame of a kind: its start byte tells the width of its address.
fn frame_in(kind: StartBytes, span: &[u8]) -> Result<Frame<'_>, Refusal>
    ensures { viewed frame_parts result ≡ start_frame kind.short kind.long span.now }
{
    match span {
        [start, a, rest @ ..] if *start == kind.short => { frame_after(Address::Short([*a]), rest) }
        [start, a, b, c, d, e, rest @ ..] if *start == kind.long => {
            frame_after(Address::Long([*a, *b, *c, *d, *e]), rest)
        }
        _ => Err(Refusal::OutOfForm),
    }
}

// The frame of an address and of what follows it, for either width.
fn frame_after(address: Address, rest: &[u8]) -> Result<Frame<'_>, Refusal>
    ensures { viewed frame_parts result ≡ frame_after (address_bytes address) rest.now }
{
    let [command, count, ..] = rest else {
        return Err(Refusal::OutOfForm);
    };
    let end = 2 + *count as usize;
    if rest.len() != end + 1 {
        return Err(Refusal::OutOfForm);
    }
    Ok(Frame {
        address,
        command: *command,
        data: &rest[2..end],
        check: rest[end],
    })
}

/// How many preambles stand before the start byte.
pub fn count_preambles(bytes: &[u8]) -> usize
    ensures value { result ≡ preambles_of bytes.now }
    ensures within { result ≤ length bytes.now }
{
    bytes.iter().take_while(|byte| **byte == PREAMBLE).count()
}
