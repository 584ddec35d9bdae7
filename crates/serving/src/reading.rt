//! What a rack tells of a channel.

ghost use Rattle.std.specs.Prelude.{◌≡◌, ◌+◌, ◌≤◌};
ghost use Rattle.rack.specs.Meaning.{channel_of};
ghost use Rattle.record.specs.Numbers.{text_length};
ghost use Rattle.serving.specs.Reading.{TellsText};

use rack::Rack;
use record::Record;
use std::array;

/// The record of a channel, put together from the rack's answers; none where there is no such
/// channel.
pub fn record_of<R: Rack>(rack: &R, channel: u8) -> Option<Record>
    ensures { result ≡ channel_of (R.Rack.records rack.now) channel }
{
    Some(Record {
        fields: rack.fields(channel).ok()?,
        reading: rack.reading(channel).ok()?,
        text: text_from(rack, channel, 0),
    })
}

/// Text bytes of a channel from a place on, 0 where there is no such channel.
pub(crate) fn text_from<R: Rack, const N: usize>(rack: &R, channel: u8, at: usize) -> [u8; N]
    requires { at + N ≤ text_length }
    ensures { TellsText (R.Rack.records rack.now) channel at N result }
{
    array::from_fn(|place| rack.text_byte(channel, (at + place) as u8).unwrap_or(0))
}
