//! What a channel that is meant does.

ghost use Rattle.std.specs.Prelude.{◌≤◌, length};
ghost use Rattle.line.specs.Answers.{answer_room};

use crate::answers::Answer;
use crate::asking::AskedChannel;
use crate::writing::carry_out;
use frame::Frame;
use line::{Judgement, reply};
use rack::Rack;
use record::Fields;
use refusals::Refusal;

/// The one channel that a transmission means, and how it judges it.
#[derive(Clone, Copy)]
pub(crate) struct Meant<'a> {
    pub(crate) channel: u8,
    pub(crate) fields: Fields,
    pub(crate) frame: Frame<'a>,
    pub(crate) judgement: Judgement<'a>,
}

impl<'a> Meant<'a> {
    ghost use Rattle.serving.specs.Answering.{Answers, Ready, view_of};

    /// Writes what the judgement changes, and nothing else; then answers from the judgement and from
    /// the channel as it is then. Not inlined, so that silence is quick.
    #[inline(never)]
    pub(crate) fn answer<R: Rack>(
        self,
        rack: &mut R,
        out: &mut [u8],
    ) -> Result<Option<Answer>, Refusal>
        requires room { answer_room ≤ length out.old }
        requires ready { Ready (R.Rack.records rack.old) (view_of self) }
        ensures { Answers R.Rack.records R.Rack.wrote (view_of self.entry) rack.old rack.new
            out.old out.new result }
    {
        let channel = self.channel;
        let fields = carry_out(rack, channel, self.fields, self.judgement);
        let asked = AskedChannel {
            rack: &*rack,
            channel,
            fields,
        };
        let length = reply(self.judgement, self.frame, &asked, out)?;
        Ok(Some(Answer { channel, length }))
    }
}
