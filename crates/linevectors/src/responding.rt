//! How the channel with a record answers a transmission.

ghost use Rattle.std.specs.Prelude.{◌≡◌, ◌≤◌, length, take, IfOk, IfSome};
ghost use Rattle.refusals.specs.Refusals.{numbered};
ghost use Rattle.frame.specs.Views.{frame_parts};
ghost use Rattle.record.specs.Lawful.{Lawful};
ghost use Rattle.line.specs.Answers.{answer_room, AnswerLaw, AnswersBy};
ghost use Rattle.line.specs.Edits.{Admitted, after_edits};
ghost use Rattle.line.specs.Judgements.{edits, changed_by};
ghost use Rattle.line.specs.Views.{judged};
ghost use Rattle.linevectors.specs.Hearing.{reception};
ghost use Rattle.linevectors.specs.Responses.{Responds, Does, allotment_in, answering_at};
ghost use Rattle.linevectors.specs.Writing.{edit_in};

use crate::heard::Heard;
use crate::told::Told;
use frame::Frame;
use line::{ANSWER_ROOM, Given, Judgement, means, reply};
use rack::{Change, apply};
use record::Record;
use refusals::Refusal;

/// Answers a transmission for the channel with this record: 102 where `out` has under 64 bytes, then 103
/// where the record is not lawful, then silence where the transmission is not whole or does not mean the
/// channel. Otherwise the answer stands in the front of `out`, its length is told, and the record is as it
/// is after the command.
pub fn respond(
    heard: Heard<'_>,
    record: &mut Record,
    given: &Given,
    out: &mut [u8],
) -> Result<Option<usize>, Refusal>
    ensures responds { Responds (reception heard.entry) (allotment_in given.now)
        «record».old «record».new out.old out.new (numbered result) }
    ensures lawful { Lawful «record».old → Lawful «record».new }
    ensures law { IfOk result (λ o. IfSome o (λ n.
        AnswerLaw heard.entry.span.now «record».new.fields.preambles (take n out.new))) }
{
    if out.len() < ANSWER_ROOM {
        return Err(Refusal::ShortBuffer);
    }
    if !record::lawful(record) {
        return Err(Refusal::BadRecord);
    }
    // Silence is an answer and no error, so no `?`.
    let Some(frame) = heard.received().frame() else {
        return Ok(None);
    };
    if !means(frame, record) {
        return Ok(None);
    }
    let length = answer(heard, frame, record, given, out)?;
    Ok(Some(length))
}

/// What a channel does that is meant: it writes what the judgement changes, and then answers from the
/// judgement and from the record as it is then.
fn answer(
    heard: Heard<'_>,
    frame: Frame<'_>,
    record: &mut Record,
    given: &Given,
    out: &mut [u8],
) -> Result<usize, Refusal>
    requires room { answer_room ≤ length out.old }
    requires lawful { Lawful «record».old }
    ensures does { let a =
        answering_at (reception heard.entry) (allotment_in given.now) «record».old
        (frame_parts frame.entry) in
        Does a «record».new out.old out.new (numbered result) }
    ensures lawful { Lawful «record».new }
    ensures law { IfOk result (λ n.
        AnswersBy (frame_parts frame.entry) «record».new.fields.preambles (take n out.new)) }
{
    let judgement = heard.judge(frame, record.fields, given);
    carry_out(record, judgement);
    reply(judgement, frame, &Told { record: *record }, out)
}

/// Writes what a judgement changes, in this order. The record stands in the place of a rack.
fn carry_out(record: &mut Record, judgement: Judgement<'_>)
    requires { Admitted (edits (judged judgement)) «record».old }
    ensures after { «record».new ≡ changed_by (judged judgement.entry) «record».old }
    ensures lawful { Lawful «record».old → Lawful «record».new }
{
    if let Judgement::Accepted(command) = judgement {
        let changes = command.changes();
        write(record, changes.field);
        write(record, changes.flag);
    }
}

/// Writes a change, if there is one.
fn write(record: &mut Record, change: Option<Change<'_>>)
    requires { Admitted (edit_in change) «record».old }
    ensures after { «record».new ≡ after_edits (edit_in change.entry) «record».old }
    ensures lawful { Lawful «record».old → Lawful «record».new }
{
    if let Some(change) = change {
        let _ = apply(record, change);
    }
}
