//! Plays a recording of a panel: `rack.rec` beside it is the rack, events come from standard input, lines go to standard output.
#![tactic(auto)]

use anyhow::Context;
use recording::Format;
use setup::MAX_SUPPLY;
use shelf::rack_file;
use std::fs;

fn main(rt: HostRuntime) -> anyhow::Result<()> {
    let file = fs::read(&rt, rack_file()).context(rack_file())?;
    // Under the largest supply fifteen channels always fit.
    player::run(
        rt.alloc(),
        Format::Linerun,
        file.as_slice(),
        MAX_SUPPLY,
        rt.stdin(),
        rt.stdout(),
    )?;
    Ok(())
}
