//! Works through a table of requests and transmissions, one a line, and prints what each is answered:
//!
//!     request COMMAND DATA     respond RECORD SUPPLY OTHERS BYTES MARKS LENGTH
//!
//! The first asks which request a command with its data is. The second lets the channel with this record answer the characters
//! with these bytes and marks, into a buffer of LENGTH bytes A5, under a header with this supply and this sum of the other
//! channels' shares. Bytes are capital hexadecimal, '-' where there are none.
#![tactic(auto)]

mod heard;
mod outcome;
mod responding;
mod told;

use anyhow::anyhow;
use heard::Heard;
use line::{Given, Request};
use outcome::Outcome;
use record::{RECORD_LENGTH, Record, record_at};
use std::alloc::Global;
use tables::{UNTOUCHED, from_bytes, to_bytes};

fn main(rt: HostRuntime) -> anyhow::Result<()> {
    run(&rt)
}

// Each program has this loop: a function of a library that reads a program's input could promise nothing of its result.
fn run(rt: &HostRuntime) -> anyhow::Result<()> {
    for line in rt.lines(rt.alloc()) {
        let line = line?;
        let words: Vec<&str> = line.as_str().split(' ').collect(rt.alloc())?;
        call(rt, words.as_slice())?;
    }
    Ok(())
}

fn call(rt: &HostRuntime, words: &[&str]) -> anyhow::Result<()> {
    match words {
        ["request", command, data] => show_request(rt, command, data),
        ["respond", words @ ..] => respond(rt, words),
        _ => Err(anyhow!("a line with no call")),
    }
}

fn show_request(rt: &HostRuntime, command: &str, data: &str) -> anyhow::Result<()> {
    let command = command.parse::<u8>()?;
    let data = to_bytes(rt.alloc(), data)?;
    match Request::of(command, data.as_slice()) {
        Request::TagQuestion(tag) => show_tag(rt, tag),
        Request::TextWrite { command, text } => show_write(rt, "text", command.number(), text),
        Request::NumberWrite { command, number } => {
            show_write(rt, "number", command.number(), number)
        }
        Request::Bare(number) => Ok(println!(rt; "bare {number}")?),
    }
}

fn show_tag(rt: &HostRuntime, tag: &[u8]) -> anyhow::Result<()> {
    let tag = from_bytes(rt.alloc(), tag)?;
    println!(rt; "tag {tag}")?;
    Ok(())
}

fn show_write(rt: &HostRuntime, kind: &str, command: u8, data: &[u8]) -> anyhow::Result<()> {
    let data = from_bytes(rt.alloc(), data)?;
    println!(rt; "{kind} {command} {data}")?;
    Ok(())
}

fn respond(rt: &HostRuntime, words: &[&str]) -> anyhow::Result<()> {
    let [row, supply, others, bytes, marks, length] = words else {
        return Err(anyhow!("a call of another form"));
    };
    let record = record(rt.alloc(), row)?;
    let given = given(supply, others)?;
    let length = length.parse::<usize>()?;
    let bytes = to_bytes(rt.alloc(), bytes)?;
    let marks = to_bytes(rt.alloc(), marks)?;
    let heard = Heard::of(bytes.as_slice(), marks.as_slice());
    answer(rt, record, given, heard, length)
}

// The record of a row, lawful or not.
fn record(heap: Global, row: &str) -> anyhow::Result<Record> {
    let row = to_bytes(heap, row)?;
    let row = <[u8; RECORD_LENGTH]>::try_from(row.as_slice())?;
    Ok(record_at(&row))
}

fn given(supply: &str, others: &str) -> anyhow::Result<Given> {
    let supply = supply.parse::<u32>()?;
    let others = others.parse::<u64>()?;
    Ok(Given { supply, others })
}

fn answer(
    rt: &HostRuntime,
    before: Record,
    given: Given,
    heard: Heard<'_>,
    length: usize,
) -> anyhow::Result<()> {
    let mut out = vec![in rt.alloc(); UNTOUCHED; length]?;
    let mut after = before;
    let answer = responding::respond(heard, &mut after, &given, out.as_mut_slice());
    let outcome = Outcome {
        answer,
        before,
        after,
        out: out.as_slice(),
    };
    outcome.tell(rt)
}
