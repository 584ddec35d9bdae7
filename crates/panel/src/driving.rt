//! A panel worked by a driver.

ghost use Rattle.std.specs.Prelude.{◌≡◌, false, length, is_ok, IsOk, OnOk};
ghost use Rattle.calls.specs.Views.{call_of};
ghost use Rattle.runs.specs.SetUps.{SetUp as TakenSetUp};
ghost use Rattle.setup.specs.SetUps.{refusal_in, set_up_refusal};
ghost use Rattle.panel.specs.Panels.{gap_with, records_in};
ghost use Rattle.panel.specs.Working.{within, Performed, WorkedOn, Worked};

use crate::driver::Driver;
use crate::state::Panel;
use calls::{Call, Response};
use rack::Rack;
use refusals::Refusal;
use serving::Answer;

/// Sets a panel up under a supply and works it by a driver until that ends the run. Answers stand in `buffer`: a gap has as much
/// room of it as the driver asks for. 107, 104, 105 or 106 where the set-up is refused; nothing has happened then.
pub fn work<R: Rack, D: Driver>(
    panel: &mut Panel<R>,
    supply: u32,
    driver: &mut D,
    buffer: &mut [u8],
) -> Result<(), Refusal>
    ensures refusal { refusal_in result ≡ set_up_refusal supply (records_in panel.old) }
    ensures exact { TakenSetUp supply (records_in panel.old) → IsOk result }
    ensures worked { OnOk result
        (Worked D.Driver panel.old panel.new driver.old driver.new buffer.old buffer.new supply) }
    ensures same { is_ok result ≡ false → panel.new ≡ panel.old }
    ensures unasked { is_ok result ≡ false → driver.new ≡ driver.old }
    ensures unwritten { is_ok result ≡ false → buffer.new ≡ buffer.old }
{
    panel.set_up(supply)?;
    work_on(panel, driver, buffer);
    Ok(())
}

/// Works a panel on by a driver until that ends the run: whatever the run was till then, it goes on by these calls.
pub fn work_on<R: Rack, D: Driver>(panel: &mut Panel<R>, driver: &mut D, buffer: &mut [u8])
    ensures { WorkedOn D.Driver panel.old panel.new driver.old driver.new buffer.old buffer.new }
{
    // Nothing says that a driver ends, so the turns are counted.
    for _ in 0..u64::MAX {
        // The end of a driver is no error, so no `?`.
        let Some(call) = driver.next() else {
            return;
        };
        perform(panel, driver, call, buffer);
    }
}

// One call that the driver named, and what came of it told.
fn perform<R: Rack, D: Driver>(panel: &mut Panel<R>, driver: &mut D, call: Call, buffer: &mut [u8])
    ensures { Performed D.Driver panel.old panel.new driver.old driver.new buffer.old buffer.new
        (within (length buffer.old) (call_of call)) }
{
    let result = match call {
        Call::Character { byte, marks } => panel.character(byte, marks),
        Call::Sample { channel, reading } => panel.sample(channel, reading),
        Call::Key { channel, open } => panel.key(channel, open),
        Call::Gap { room } => {
            let least = room.min(buffer.len());
            return end(panel, driver, &mut buffer[0..least]);
        }
    };
    driver.hear(call, result.map(|()| Response::Taken));
}

// A gap with this buffer, and what came of it told. Not inlined, so that the loop over characters stays small.
#[inline(never)]
fn end<R: Rack, D: Driver>(panel: &mut Panel<R>, driver: &mut D, out: &mut [u8])
    ensures { Performed D.Driver panel.old panel.new driver.old driver.new out.old out.new
        (gap_with out.old) }
{
    let call = Call::Gap { room: out.len() };
    match panel.gap(out) {
        Ok(None) => driver.hear(call, Ok(Response::Silent)),
        Ok(Some(Answer { channel, length })) => {
            let bytes = &out[0..length];
            driver.hear(call, Ok(Response::Answered { channel, bytes }));
        }
        Err(refusal) => driver.hear(call, Err(refusal)),
    }
}
