//! What a channel answers.

ghost use Rattle.std.specs.Prelude.{◌≡◌, ◌+◌, ◌≤◌, [], ◌∷◌, ◌++◌, length};
ghost use Rattle.record.specs.Lawful.{LawfulFields};
ghost use Rattle.record.specs.TextParts.{labels, message, part_of};
ghost use Rattle.record.specs.declared.Record.{Record as ChannelRecord};
ghost use Rattle.line.specs.Answers.{most_carried};
ghost use Rattle.line.specs.Judgements.{carried, second_for};
ghost use Rattle.line.specs.Replies.{reply_data};
ghost use Rattle.line.specs.Views.{judged, MakesAnswer, ShortAnswer, KeepsAnswerLaw};

use crate::accepted::AcceptedCommand;
use crate::commands::Command;
use crate::data::{flow_data, setpoint_data, unique_identifier_data};
use crate::judgements::Judgement;
use arrayvec::ArrayVec;
use frame::{Frame, Transmission};
use record::{Fields, LABELS, MESSAGE, Reading, u24_to_be_bytes};
use refusals::Refusal;

/// How many text bytes tag, descriptor and date are together.
pub const LABELS_LENGTH: usize = LABELS.end - LABELS.start;

/// How many text bytes the message is.
pub const MESSAGE_LENGTH: usize = MESSAGE.end - MESSAGE.start;

/// No answer is longer.
pub const MAX_ANSWER: usize = 50;

/// The room that is asked for an answer.
pub const ANSWER_ROOM: usize = 64;

const _: () = prove!(MAX_ANSWER <= ANSWER_ROOM);

/// The second status where the configuration counts as changed.
const CONFIGURATION_CHANGED: u8 = 64;

/// Two status bytes and at most 24 data bytes.
const MAX_CONTENT: usize = 26;

/// What a reply's frame carries.
type Content = ArrayVec<u8, MAX_CONTENT>;

/// What a reply tells of a channel. Each part is asked for only where the reply has it.
pub trait ReplySource {
    ghost channel_record: { Self → ChannelRecord };

    fn fields(&self) -> Fields
        ensures { result ≡ (channel_record self.now).fields };

    fn reading(&self) -> Reading
        ensures { result ≡ (channel_record self.now).reading };

    /// Tag, descriptor and date.
    fn labels(&self) -> [u8; LABELS_LENGTH]
        ensures { result ≡ part_of labels (channel_record self.now).text };

    fn message(&self) -> [u8; MESSAGE_LENGTH]
        ensures { result ≡ part_of message (channel_record self.now).text };

    ghost lawful: { (x : Self) → LawfulFields (channel_record x).fields };
}

/// Makes the reply of a judgement, from the channel after the writes, in the front of `out` and answers
/// its length: 102 where `out` is too short.
pub fn reply<S: ReplySource>(
    judgement: Judgement<'_>,
    frame: Frame<'_>,
    source: &S,
    out: &mut [u8],
) -> Result<usize, Refusal>
    ensures fills { MakesAnswer frame.entry judgement.entry (S.channel_record source.now)
        out.old result out.new }
    ensures short { ShortAnswer frame.entry judgement.entry (S.channel_record source.now) }
    ensures law { KeepsAnswerLaw frame.entry (S.channel_record source.now) result out.new }
{
    let fields = source.fields();
    let content = content(judgement, fields, source);
    let reply = Transmission {
        preambles: usize::from(fields.preambles),
        address: frame.address,
        command: frame.command,
        data: content.as_slice(),
    };
    frame::make_reply(reply, out)
}

/// What a reply carries.
fn content<S: ReplySource>(judgement: Judgement<'_>, fields: Fields, source: &S) -> Content
    requires { fields ≡ (S.channel_record source.now).fields }
    ensures { result.items ≡ carried (judged judgement.entry) (S.channel_record source.now) }
{
    match judgement {
        Judgement::CommunicationError(status) => status_bytes(status, 0),
        Judgement::Refused(code) => status_bytes(code.number(), second_status(fields.changed)),
        Judgement::Accepted(accepted) => {
            let mut content = status_bytes(0, second_status(fields.changed));
            put_data(&mut content, accepted, fields, source);
            content
        }
    }
}

/// The second status by the changed flag.
fn second_status(changed: bool) -> u8
    ensures { result ≡ second_for changed }
{
    if changed { CONFIGURATION_CHANGED } else { 0 }
}

/// The two status bytes, and no data yet.
fn status_bytes(status: u8, second: u8) -> Content
    ensures { result.items ≡ status ∷ second ∷ [] }
{
    let mut content = Content::new();
    content.push(status);
    content.push(second);
    content
}

/// Appends a part for which there is room.
fn put(content: &mut Content, part: &[u8])
    requires { length content.old.items + length part.now ≤ most_carried }
    ensures { content.new.items ≡ content.old.items ++ part.now }
{
    let _ = content.try_extend_from_slice(part);
}

/// Appends the data of a reply of code 0, from the command's data and the channel after the writes.
fn put_data<S: ReplySource>(
    content: &mut Content,
    accepted: AcceptedCommand<'_>,
    fields: Fields,
    source: &S,
)
    requires fields { fields ≡ (S.channel_record source.now).fields }
    requires room { length content.old.items ≡ 2 }
    ensures { content.new.items
        ≡ content.old.items
        ++ reply_data accepted.entry.command accepted.entry.«data».now
        (S.channel_record source.now) }
{
    match accepted.command {
        Command::ReadUniqueIdentifier | Command::ReadUniqueIdentifierByTag => {
            put(content, &unique_identifier_data(fields))
        }
        Command::ReadPrimaryVariable => put(
            content,
            &flow_data(fields.flow_unit, source.reading().flow),
        ),
        Command::ReadMessage => put(content, &source.message()),
        Command::ReadTagDescriptorDate => put(content, &source.labels()),
        Command::ReadAssemblyNumber => put(content, &u24_to_be_bytes(fields.assembly_number)),
        Command::ReadSetpoint | Command::WriteSetpoint => put(content, &setpoint_data(fields)),
        Command::ResetConfigurationChanged => {}
        Command::WritePollingAddress
        | Command::WriteMessage
        | Command::WriteTagDescriptorDate
        | Command::WriteAssemblyNumber
        | Command::WritePreambles => put(content, accepted.data),
    }
}
