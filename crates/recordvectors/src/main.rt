//! Works through a table of records and record files, one a line, and prints what each is answered:
//!
//!     record BYTES     shelf BYTES     single BYTES     text RECORD PLACE
//!
//! The last asks a single instrument that was filled with the record for the text byte at a place.
//! Bytes are capital hexadecimal, '-' where there are none.
#![tactic(auto)]

use anyhow::{Context, anyhow};
use rack::Rack;
use shelf::Shelf;
use single::Single;
use tables::{Byte, Checked, Filled, to_bytes};

// What is told of a record that has not 80 bytes: the words of the language's own error where a slice is no array.
const ANOTHER_LENGTH: &str = "could not convert slice to array";

fn main(rt: HostRuntime) -> anyhow::Result<()> {
    run(&rt)
}

// Each program has this loop: a function of a library that reads a program's input could promise nothing of its result.
fn run(rt: &HostRuntime) -> anyhow::Result<()> {
    for line in rt.lines(rt.alloc()) {
        let line = line?;
        let words: Vec<&str> = line.as_str().split(' ').collect(rt.alloc())?;
        call(rt, words.as_slice())?;
    }
    Ok(())
}

fn call(rt: &HostRuntime, words: &[&str]) -> anyhow::Result<()> {
    match words {
        ["record", row] => {
            let row = to_bytes(rt.alloc(), row)?;
            let checked = Checked::of(row.as_slice()).context(ANOTHER_LENGTH)?;
            println!(rt; "{checked}")?
        }
        ["shelf", file] => {
            let file = to_bytes(rt.alloc(), file)?;
            println!(rt; "{}", Filled::by(&mut Shelf::blank(), file.as_slice()))?
        }
        ["single", file] => {
            let file = to_bytes(rt.alloc(), file)?;
            println!(rt; "{}", Filled::by(&mut Single::blank(), file.as_slice()))?
        }
        ["text", row, place] => {
            let place = place.parse::<u8>()?;
            let row = to_bytes(rt.alloc(), row)?;
            let mut single = Single::blank();
            single.fill(row.as_slice())?;
            println!(rt; "{}", Byte(single.text_byte(0, place)))?
        }
        _ => return Err(anyhow!("a line with no call")),
    }
    Ok(())
}
