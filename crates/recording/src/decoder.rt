//! The calls of events.

ghost use Rattle.std.specs.Prelude.{◌≡◌};
ghost use Rattle.std.specs.Int.{from_be_bytes, w64};
ghost use Rattle.std.specs.List.{between};
ghost use Rattle.recording.specs.Events.{viewed, event_call};

use calls::Call;
use line::ANSWER_ROOM;
use record::{Reading, value_of};
use refusals::Refusal;

/// How many bytes each event of a recording has.
pub const EVENT_LENGTH: usize = 12;

/// The call of an event, by its kind in byte 0 (docs/PLAYING.md). Of the last eight bytes, the patterns of flow and temperature in a
/// sample, the first is the most significant one. Anything else is out of form.
#[inline(always)]
pub fn decode_event(event: &[u8; EVENT_LENGTH]) -> Result<Call, Refusal>
    ensures { viewed result ≡ event_call event.now }
{
    let [kind, first, second, third, ..] = *event;
    match (kind, first, second, third, last_eight(event)) {
        (1, byte, marks, 0, 0) => Ok(Call::Character { byte, marks }),
        // A recorded gap has room for any answer.
        (2, 0, 0, 0, 0) => Ok(Call::Gap { room: ANSWER_ROOM }),
        (3, channel, 0, 0, patterns) => Ok(Call::Sample {
            channel,
            reading: Reading {
                flow: value_of((patterns >> 32) as u32),
                temperature: value_of((patterns % (1 << 32)) as u32),
            },
        }),
        (4, channel, open @ 0..=1, 0, 0) => Ok(Call::Key {
            channel,
            open: open == 1,
        }),
        _ => Err(Refusal::OutOfForm),
    }
}

// Bytes 4 to 11 as one number: whether all are 0 is seen at once.
#[inline(always)]
pub(crate) fn last_eight(event: &[u8; EVENT_LENGTH]) -> u64
    ensures { result ≡ from_be_bytes w64 (between 4 12 event.now) }
{
    let [_, _, _, _, a, b, c, d, e, f, g, h] = *event;
    u64::from_be_bytes([a, b, c, d, e, f, g, h])
}
