//! The end of a transmission.

ghost use Rattle.std.specs.Prelude.{◌≡◌, Some};
ghost use Rattle.std.specs.Option.{option_map};
ghost use Rattle.frame.specs.Views.{frame_parts};
ghost use Rattle.line.specs.Views.{reception};
ghost use Rattle.line.specs.Whole.{frame_of};
ghost use Rattle.serving.specs.Answering.{Finds, view_of};
ghost use Rattle.serving.specs.Meant.{sole_meant};
ghost use Rattle.serving.specs.Serving.{Serves, served, Lawfully, answering_in};

use crate::answering::Meant;
use crate::answers::Answer;
use crate::asking::Beside;
use crate::choosing::sole_meant;
use frame::Frame;
use line::{ANSWER_ROOM, Received, judge};
use rack::Rack;
use refusals::Refusal;

/// Serves a transmission at the channels of a rack, under a supply in mL/min: 102 where `out` has
/// under 64 bytes, before anything is asked or written. The one channel that is meant writes through
/// the rack what its command writes, and answers in the front of `out`. All are silent, and nothing
/// is written, where none or several are meant, where there is no supply, as before a set-up, and
/// where the transmission is longer than any whole one.
pub fn serve<R: Rack>(
    rack: &mut R,
    supply: Option<u32>,
    received: Option<Received<'_>>,
    out: &mut [u8],
) -> Result<Option<Answer>, Refusal>
    ensures serves { let x = option_map reception received.entry in
        Serves R.Rack.records R.Rack.wrote (served supply (R.Rack.records rack.old) x out.old)
        rack.old rack.new out.old out.new result }
    ensures law { let x = option_map reception received.entry in
        Lawfully x (answering_in (served supply (R.Rack.records rack.old) x out.old)) }
{
    if out.len() < ANSWER_ROOM {
        return Err(Refusal::ShortBuffer);
    }
    // Silence is an answer and no error, so no `?`.
    let Some(meant) = find(rack, supply, received) else {
        return Ok(None);
    };
    meant.answer(rack, out)
}

// The channel that is meant, if just one is, and its judgement.
#[inline(always)]
fn find<'a, R: Rack>(
    rack: &R,
    supply: Option<u32>,
    received: Option<Received<'a>>,
) -> Option<Meant<'a>>
    ensures { let x = option_map reception received.entry in
        Finds supply (R.Rack.records rack.now) x (option_map view_of result) }
{
    let supply = supply?;
    let received = received?;
    let frame = received.frame()?;
    let channel = sole_meant(rack, frame)?;
    judged(rack, supply, received, frame, channel)
}

// The judgement by the channel that a transmission means. Not inlined, so that silence is quick.
#[inline(never)]
fn judged<'a, R: Rack>(
    rack: &R,
    supply: u32,
    received: Received<'a>,
    frame: Frame<'a>,
    channel: u8,
) -> Option<Meant<'a>>
    requires framed { frame_of (reception received) ≡ Some (frame_parts frame) }
    requires sole { sole_meant (frame_parts frame) (R.Rack.records rack.now) ≡ Some channel }
    ensures { let x = Some (reception received.entry) in
        Finds (Some supply) (R.Rack.records rack.now) x (option_map view_of result) }
{
    let fields = rack.fields(channel).ok()?;
    let beside = Beside {
        rack,
        supply,
        channel,
    };
    Some(Meant {
        channel,
        fields,
        frame,
        judgement: judge(received, frame, fields, &beside),
    })
}
