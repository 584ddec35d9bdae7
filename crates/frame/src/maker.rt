//! Makes transmissions in buffers that are lent.

ghost use Rattle.std.specs.Prelude.{◌≡◌, ◌+◌, ◌≤◌, length};
ghost use Rattle.refusals.specs.Filling.{placed};
ghost use Rattle.frame.specs.Making.{transmission, reply_transmission, ReadsBack};
ghost use Rattle.frame.specs.Transmissions.{Replies};
ghost use Rattle.frame.specs.Views.{request_parts, requested, frame_of, FrameFits, Makes, Made, sent_as, SentAs};

use crate::{
    Address, MAX_DATA, MAX_PREAMBLES, MIN_PREAMBLES, PREAMBLE, REPLY, REQUEST, RequestParts,
    StartBytes, Transmission, check,
};
use refusals::Refusal;

/// Makes a request's transmission in the front of `out` and answers its length: 110 unless it has 2 to 20 preambles, an
/// address of 1 or 5 bytes and at most 255 data bytes, then 102 where `out` is too short.
pub fn make_request(request: RequestParts<'_>, out: &mut [u8]) -> Result<usize, Refusal>
    ensures fills { Makes transmission (requested request.entry) out.old result out.new }
    ensures back { Made ReadsBack (requested request.entry) result out.new }
{
    let parts = Transmission {
        preambles: request.preambles,
        address: Address::try_from(request.address)?,
        command: request.command,
        data: request.data,
    };
    make(REQUEST, parts, out)
}

/// Makes a reply's transmission in the same way. Its data begin with the two status bytes.
pub fn make_reply(reply: Transmission<'_>, out: &mut [u8]) -> Result<usize, Refusal>
    ensures fills { Makes reply_transmission (request_parts reply.entry) out.old result out.new }
    ensures sound { Made Replies (request_parts reply.entry) result out.new }
{
    make(REPLY, reply, out)
}

// Makes a transmission, with the start byte that tells the width of its address.
fn make(kind: StartBytes, parts: Transmission<'_>, out: &mut [u8]) -> Result<usize, Refusal>
    ensures fills { Makes (sent_as kind) (request_parts parts.entry) out.old result out.new }
    ensures sound { Made (SentAs kind) (request_parts parts.entry) result out.new }
{
    let preambles = parts.preambles;
    if preambles < MIN_PREAMBLES || preambles > MAX_PREAMBLES || parts.data.len() > MAX_DATA {
        return Err(Refusal::OutOfForm);
    }
    if out.len() < preambles + parts.address.bytes().len() + parts.data.len() + 4 {
        return Err(Refusal::ShortBuffer);
    }
    let start = match parts.address {
        Address::Short(_) => kind.short,
        Address::Long(_) => kind.long,
    };
    let end = put(out, 0, &[PREAMBLE; MAX_PREAMBLES][0..preambles]);
    Ok(put_frame(out, end, start, parts))
}

// Writes a frame from `at` on and answers where it ends.
fn put_frame(out: &mut [u8], at: usize, start: u8, parts: Transmission<'_>) -> usize
    requires { FrameFits at parts (length out.old) }
    ensures next { result ≡ at + length (frame_of start parts.entry) }
    ensures after { out.new ≡ placed at (frame_of start parts.entry) out.old }
{
    let end = put(out, at, &[start]);
    let end = put(out, end, parts.address.bytes());
    let end = put(out, end, &[parts.command, parts.data.len() as u8]);
    let end = put(out, end, parts.data);
    let check = check(&out[at..end]);
    put(out, end, &[check])
}

// Writes `part` from `at` on and answers where the next part goes.
fn put(out: &mut [u8], at: usize, part: &[u8]) -> usize
    requires { at + length part.now ≤ length out.old }
    ensures next { result ≡ at + length part.now }
    ensures after { out.new ≡ placed at part.now out.old }
{
    let end = at + part.len();
    out[at..end].copy_from_slice(part);
    end
}
