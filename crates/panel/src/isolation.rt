//! Isolation, as a call on two panels.

ghost use Rattle.std.specs.Prelude.{◌≡◌};
ghost use Rattle.std.specs.Option.{option_map};
ghost use Rattle.record.specs.Layout.{encoded};
ghost use Rattle.panel.specs.Alone.{Isolates, only_record?};
ghost use Rattle.panel.specs.Panels.{channel_in, channels_in};

use crate::state::Panel;
use rack::Rack;
use record::{RECORD_LENGTH, encode};
use serving::record_of;

/// Whether the record of a channel is the only one of another panel, byte for byte, whatever racks they are over. So it is where
/// the other panel was set up under the same supply with that channel's record alone, and got the calls of that channel alone.
pub fn is_alone<R: Rack, S: Rack>(panel: &Panel<R>, channel: u8, lone: &Panel<S>) -> bool
    ensures same { result ≡ only_record? (channel_in panel.now channel) (channels_in lone.now) }
    ensures isolates { Isolates panel.now channel lone.now result }
{
    compare(panel, channel, lone)
}

// Apart from `is_alone`, whose second clause is proved from what this one ensures.
fn compare<R: Rack, S: Rack>(panel: &Panel<R>, channel: u8, lone: &Panel<S>) -> bool
    ensures { result ≡ only_record? (channel_in panel.now channel) (channels_in lone.now) }
{
    let Some(record) = panel.record_bytes(channel) else {
        return false;
    };
    let Some(only) = lone.record_bytes(0) else {
        return false;
    };
    lone.record_bytes(1).is_none() && record == only
}

impl<R: Rack> Panel<R> {
    // The bytes of a channel's record, if there is such a channel.
    fn record_bytes(&self, channel: u8) -> Option<[u8; RECORD_LENGTH]>
        ensures { result ≡ option_map encoded (channel_in self.now channel) }
    {
        self.supply?;
        let record = record_of(&self.rack, channel)?;
        Some(encode(&record))
    }
}
