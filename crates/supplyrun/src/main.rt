//! Plays a recording of a panel under the supply that is its argument, in mL/min: what would the panel have done under another one?
//! `rack.rec` beside it is the rack, events come from standard input, lines go to standard output.
#![tactic(auto)]

use anyhow::{Context, anyhow, ensure};
use recording::Format;
use shelf::rack_file;
use std::{env, fs};

const USAGE: &str = "usage: supplyrun SUPPLY < RECORDING

Plays a recording on the rack of rack.rec, under SUPPLY mL/min, a decimal number from 0 to 4294967295.";

fn main(rt: HostRuntime) -> anyhow::Result<()> {
    if wants_help(&rt)? {
        println!(rt; "{USAGE}")?;
        return Ok(());
    }
    let supply = supply(&rt)?;
    let file = fs::read(&rt, rack_file()).context(rack_file())?;
    player::run(
        rt.alloc(),
        Format::Supplyrun,
        file.as_slice(),
        supply,
        rt.stdin(),
        rt.stdout(),
    )?;
    Ok(())
}

// Whether the one argument asks for help.
fn wants_help(rt: &HostRuntime) -> anyhow::Result<bool> {
    let mut words = env::args(rt)?;
    words.next();
    Ok(words.next().is_some_and(|word| word.as_str() == "--help"))
}

// The supply, from the one argument: a decimal number.
fn supply(rt: &HostRuntime) -> anyhow::Result<u32> {
    let mut words = env::args(rt)?;
    words.next();
    let word = words.next().ok_or_else(|| anyhow!(
        "the supply is missing: supplyrun SUPPLY, in mL/min"
    ))?;
    ensure!(
        words.next().is_none(),
        "too many arguments: supplyrun SUPPLY, in mL/min"
    );
    let digits = word.as_str().as_bytes();
    ensure!(
        digits.iter().all(|c| c.is_ascii_digit()),
        "the supply is not a decimal number"
    );
    word.as_str()
        .parse::<u32>()
        .context("the supply is not a decimal number from 0 to 4294967295")
}
