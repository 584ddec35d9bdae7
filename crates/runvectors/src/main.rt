//! Works through a table of recordings, one a line, and prints what each prints when it is played:
//!
//!     linerun RACK EVENTS     supplyrun SUPPLY RACK EVENTS
//!
//! RACK is a record file and EVENTS a recording, both in capital hexadecimal, '-' where there are none. What is printed has '/' in the
//! place of each line feed, '-' where it is nothing.
#![tactic(auto)]

use anyhow::anyhow;
use recording::Format;
use setup::MAX_SUPPLY;
use std::str;
use tables::to_bytes;

fn main(rt: HostRuntime) -> anyhow::Result<()> {
    run(&rt)
}

// Each program has this loop: a function of a library that reads a program's input could promise nothing of its result.
fn run(rt: &HostRuntime) -> anyhow::Result<()> {
    for line in rt.lines(rt.alloc()) {
        let line = line?;
        let words: Vec<&str> = line.as_str().split(' ').collect(rt.alloc())?;
        call(rt, words.as_slice())?;
    }
    Ok(())
}

fn call(rt: &HostRuntime, words: &[&str]) -> anyhow::Result<()> {
    match words {
        ["linerun", file, events] => play(rt, Format::Linerun, MAX_SUPPLY, file, events),
        ["supplyrun", supply, file, events] => {
            play(rt, Format::Supplyrun, supply.parse()?, file, events)
        }
        _ => Err(anyhow!("a line with no recording")),
    }
}

// Plays a recording that stands in memory.
fn play(
    rt: &HostRuntime,
    format: Format,
    supply: u32,
    file: &str,
    events: &str,
) -> anyhow::Result<()> {
    let heap = rt.alloc();
    let file = to_bytes(heap, file)?;
    let events = to_bytes(heap, events)?;
    let output = player::run(
        heap,
        format,
        file.as_slice(),
        supply,
        events.as_slice(),
        Vec::new(heap),
    )?;
    show(rt, output.as_slice())
}

// Prints lines of text as one line.
fn show(rt: &HostRuntime, output: &[u8]) -> anyhow::Result<()> {
    if output.is_empty() {
        println!(rt; "-")?;
        return Ok(());
    }
    for line in str::from_utf8(output)?.lines() {
        print!(rt; "{line}/")?;
    }
    println!(rt)?;
    Ok(())
}
