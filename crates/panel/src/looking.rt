//! Looks at a channel's record.

ghost use Rattle.std.specs.Prelude.{◌≡◌};
ghost use Rattle.refusals.specs.Refusals.{numbered};
ghost use Rattle.panel.specs.Panels.{channel_in, look_record, look_buffer};

use crate::state::Panel;
use rack::Rack;
use record::{RECORD_LENGTH, encode};
use refusals::Refusal;
use serving::record_of;

impl<R: Rack> Panel<R> {
    /// Fills the front of `out` with the 80 bytes of a channel's record: 101 where there is no such channel, then 102 where `out`
    /// has under 80 bytes. Bytes past them stay, and nothing else changes.
    pub fn look(&self, channel: u8, out: &mut [u8]) -> Result<(), Refusal>
        ensures answer { numbered result ≡ look_record out.old (channel_in self.now channel) }
        ensures buffer { out.new ≡ look_buffer out.old (channel_in self.now channel) }
    {
        if self.supply.is_none() {
            return Err(Refusal::NoChannel);
        }
        let record = record_of(&self.rack, channel).ok_or(Refusal::NoChannel)?;
        let front = out
            .first_chunk_mut::<RECORD_LENGTH>()
            .ok_or(Refusal::ShortBuffer)?;
        *front = encode(&record);
        Ok(())
    }
}
