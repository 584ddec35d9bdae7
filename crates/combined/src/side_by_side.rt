//! Two racks side by side.
ghost use Rattle.std.specs.Prelude.{◌≡◌, ◌++◌, None, IfOk, OnErr};
ghost use Rattle.combined.specs.Sides.{routed, wrote_beside, FoundAt};
ghost use Rattle.rack.specs.Meaning.{told, channel_of};
ghost use Rattle.rack.specs.Refusals.{numbered};
ghost use Rattle.std.proofs.ByRecursion.{All-append};
ghost use Rattle.record.specs.Lawful.{Lawful};

use rack::{Change, MAX_CHANNELS, Rack, RackRefusal};
use record::{Fields, Reading};
use refusals::Refusal;

// The number of records that is told for all above the most channels.
const MANY: u8 = MAX_CHANNELS + 1;

/// Two racks side by side, whatever each is made of: the left one's channels first.
#[derive(Drop)]
pub struct SideBySide<L, R> {
    pub left: L,
    pub right: R,
}

// A channel of one of the two.
#[derive(Clone, Copy)]
pub(crate) enum Side {
    Left(u8),
    Right(u8),
}

impl<L: Rack, R: Rack> SideBySide<L, R> {
    // Which rack a channel is of, and its number there.
    fn route(&self, channel: u8) -> Result<Side, RackRefusal>
        ensures value { numbered result ≡ routed (told (L.Rack.records self.now.left)) channel }
        ensures found { IfOk result
            (FoundAt (L.Rack.records self.now.left) (R.Rack.records self.now.right) channel) }
        ensures absent { OnErr result
            (channel_of (L.Rack.records self.now.left ++ R.Rack.records self.now.right) channel
            ≡ None) }
    {
        let left = self.left.count();
        if channel >= MAX_CHANNELS {
            Err(Refusal::NoChannel.into())
        } else if channel < left {
            Ok(Side::Left(channel))
        } else {
            Ok(Side::Right(channel - left))
        }
    }
}

// The five matches stay: a closure for each side would name each method twice too, and no `dyn` may be handed out.
impl<L: Rack, R: Rack> Rack for SideBySide<L, R> {
    ghost records = { λ s. L.Rack.records s.left ++ R.Rack.records s.right };

    ghost wrote = { λ old new channel edit answer.
        wrote_beside L.Rack.wrote R.Rack.wrote (routed (told (L.Rack.records old.left)) channel)
        old.left new.left old.right new.right edit answer };

    ghost lawful = { λ s. All-append Lawful (L.Rack.records s.left) (R.Rack.records s.right)
        (L.Rack.lawful s.left) (R.Rack.lawful s.right) };

    fn count(&self) -> u8 {
        (self.left.count() + self.right.count()).min(MANY)
    }

    fn fields(&self, channel: u8) -> Result<Fields, RackRefusal> {
        match self.route(channel)? {
            Side::Left(channel) => self.left.fields(channel),
            Side::Right(channel) => self.right.fields(channel),
        }
    }

    fn reading(&self, channel: u8) -> Result<Reading, RackRefusal> {
        match self.route(channel)? {
            Side::Left(channel) => self.left.reading(channel),
            Side::Right(channel) => self.right.reading(channel),
        }
    }

    fn text_byte(&self, channel: u8, place: u8) -> Result<u8, RackRefusal> {
        match self.route(channel)? {
            Side::Left(channel) => self.left.text_byte(channel, place),
            Side::Right(channel) => self.right.text_byte(channel, place),
        }
    }

    fn write(&mut self, channel: u8, change: Change<'_>) -> Result<(), RackRefusal> {
        match self.route(channel)? {
            Side::Left(channel) => self.left.write(channel, change),
            Side::Right(channel) => self.right.write(channel, change),
        }
    }
}
