//! Works through a table of calls on setpoints, one a line, and prints what each answers:
//!
//!     load PATTERN              admitted PATTERN CEILING       lawful PATTERN
//!     units PATTERN FULLSCALE   share LOAD FULLSCALE
//!
//! Patterns are capital hexadecimal.
#![tactic(auto)]

use anyhow::anyhow;
use setpoint::{admitted, classify, in_units, lawful, share};
use tables::{Admitted, Classified, Units, YesNo, to_pattern};

fn main(rt: HostRuntime) -> anyhow::Result<()> {
    run(&rt)
}

// Each program has this loop: a function of a library that reads a program's input could promise nothing of its result.
fn run(rt: &HostRuntime) -> anyhow::Result<()> {
    for line in rt.lines(rt.alloc()) {
        let line = line?;
        let words: Vec<&str> = line.as_str().split(' ').collect(rt.alloc())?;
        call(rt, words.as_slice())?;
    }
    Ok(())
}

fn call(rt: &HostRuntime, words: &[&str]) -> anyhow::Result<()> {
    match words {
        ["load", pattern] => println!(rt; "{}", Classified(classify(to_pattern(pattern)?)))?,
        ["admitted", pattern, ceiling] => {
            println!(rt;
                "{}",
                Admitted(admitted(to_pattern(pattern)?, ceiling.parse()?))
            )?
        }
        ["lawful", pattern] => println!(rt; "{}", YesNo(lawful(to_pattern(pattern)?)))?,
        ["units", pattern, full_scale] => {
            println!(rt;
                "{}",
                Units(in_units(to_pattern(pattern)?, full_scale.parse()?))
            )?
        }
        ["share", load, full_scale] => {
            println!(rt; "{}", share(load.parse()?, full_scale.parse()?))?
        }
        _ => return Err(anyhow!("a line with no call")),
    }
    Ok(())
}
