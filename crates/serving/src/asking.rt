//! A channel of a rack, as its judgement and its reply ask of it.

ghost use Rattle.std.specs.Prelude.{◌≡◌, ◌≤◌, Some, length};
ghost use Rattle.rack.specs.Meaning.{most_channels};
ghost use Rattle.runs.specs.Channel.{flow_channel};
ghost use Rattle.runs.specs.Shares.{others};
ghost use Rattle.serving.specs.Serving.{allotment_of};
ghost use Rattle.serving.specs.AskedChannels.{fields_of, record_of, asked_lawful};

use crate::reading::text_from;
use line::{Allotting, LABELS_LENGTH, MESSAGE_LENGTH, ReplySource};
use rack::Rack;
use record::{Fields, LABELS, MESSAGE, Reading};

/// What the other channels of a rack leave of the supply: asked only where a setpoint asks.
#[derive(Drop)]
pub(crate) struct Beside<'a, R: Rack> {
    pub(crate) rack: &'a R,
    pub(crate) supply: u32,
    pub(crate) channel: u8,
    ghost few: { length (R.Rack.records rack.now) ≤ most_channels },
}

impl<'a, R: Rack> Allotting for Beside<'a, R> {
    ghost allotment = { λ b. allotment_of b.supply (R.Rack.records b.rack.now) b.channel };

    fn fits(&self, share: u64) -> bool {
        let supply = self.supply;
        match others_share(self.rack, self.channel).checked_add(share) {
            Some(total) => header::fits(supply, total),
            None => false,
        }
    }
}

/// The sum of the shares of all channels but one.
fn others_share<R: Rack>(rack: &R, channel: u8) -> u64
    requires { length (R.Rack.records rack.now) ≤ most_channels }
    ensures { result ≡ others flow_channel (R.Rack.records rack.now) channel }
{
    header::total_share(rack).map_or(0, |total| {
        total.saturating_sub(header::channel_share(rack, channel))
    })
}

/// A channel that there is, while nothing is written.
#[derive(Drop)]
pub(crate) struct AskedChannel<'a, R: Rack> {
    pub(crate) rack: &'a R,
    pub(crate) channel: u8,
    pub(crate) fields: Fields,
    ghost there: { fields_of (R.Rack.records rack.now) channel ≡ Some fields },
}

impl<'a, R: Rack> ReplySource for AskedChannel<'a, R> {
    ghost channel_record = { λ a. record_of (R.Rack.records a.rack.now) a.channel };

    ghost lawful = { λ a.
        asked_lawful (R.Rack.records a.rack.now) a.channel (R.Rack.lawful a.rack.now) };

    fn fields(&self) -> Fields {
        self.fields
    }

    fn reading(&self) -> Reading {
        self.rack.reading(self.channel).unwrap()
    }

    fn labels(&self) -> [u8; LABELS_LENGTH] {
        text_from(self.rack, self.channel, LABELS.start)
    }

    fn message(&self) -> [u8; MESSAGE_LENGTH] {
        text_from(self.rack, self.channel, MESSAGE.start)
    }
}
