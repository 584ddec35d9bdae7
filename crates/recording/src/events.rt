//! What an event asks for, by its program.

ghost use Rattle.std.specs.Prelude.{◌≡◌};
ghost use Rattle.recording.specs.Events.{asked_by, own_asks, event_asks};

use crate::decoder::{EVENT_LENGTH, decode_event, last_eight};
use calls::Call;
use refusals::Refusal;

/// Which program's events a recording has.
#[derive(Clone, Copy, PartialEq, Eq, Debug)]
pub enum Format {
    /// Calls alone, each gap with room for any answer.
    Linerun,
    /// Besides them gaps of any room, looks, and set-ups again.
    Supplyrun,
}

/// What an event asks for. A look and a set-up are cases of their own and no `Pause`: within one case it would lie over a call's
/// first bytes, and each call would be copied once more.
#[derive(Clone, Copy)]
pub enum Event {
    Call(Call),
    Look { channel: u8 },
    SetUp { supply: u32 },
}

/// What is done with a panel between the calls of a run.
#[derive(Clone, Copy)]
pub enum Pause {
    /// The record of a channel is looked at.
    Look { channel: u8 },
    /// The panel is set up again, under this supply in mL/min.
    SetUp { supply: u32 },
}

impl Format {
    /// What an event asks for, by its kind in byte 0: what `decode_event` knows, and in a recording of supplyrun what `decode_own`
    /// knows (docs/PLAYING.md). Anything else is out of form.
    #[inline(always)]
    pub fn decode(self, event: &[u8; EVENT_LENGTH]) -> Result<Event, Refusal>
        ensures { asked_by result ≡ event_asks self event.now }
    {
        match (decode_event(event), self) {
            (Ok(call), _) => Ok(Event::Call(call)),
            (Err(_), Format::Supplyrun) => decode_own(event),
            (Err(_), Format::Linerun) => Err(Refusal::OutOfForm),
        }
    }
}

// What an event of one of the three kinds asks for that supplyrun has besides.
fn decode_own(event: &[u8; EVENT_LENGTH]) -> Result<Event, Refusal>
    ensures { asked_by result ≡ own_asks event.now }
{
    let [kind, first, second, third, ..] = *event;
    match (kind, first, second, third, last_eight(event)) {
        (5, room, 0, 0, 0) => Ok(Event::Call(Call::Gap {
            room: usize::from(room),
        })),
        (6, channel, 0, 0, 0) => Ok(Event::Look { channel }),
        (7, 0, 0, 0, supply) if supply % (1 << 32) == 0 => Ok(Event::SetUp {
            supply: (supply >> 32) as u32,
        }),
        _ => Err(Refusal::OutOfForm),
    }
}
