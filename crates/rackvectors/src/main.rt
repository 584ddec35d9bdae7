//! Works through a table of writes to a rack, one a line, and prints what each answers:
//!
//!     write BYTES CEILING KIND VALUE..
//!
//! Bytes and patterns are capital hexadecimal, '-' where there are none. A write goes to a single instrument under a
//! ceiling, which then tells its 80 bytes.
#![tactic(auto)]

ghost use Rattle.std.specs.Prelude.{◌≡◌, IfOk, Ok};
ghost use Rattle.tables.specs.Words.{pattern_at};
ghost use Rattle.rackvectors.specs.Rows.{Tells, Samples, Holds};

use anyhow::{Context, anyhow};
use combined::Ceiling;
use rack::{Change, Rack, RackRefusal};
use record::{Reading, value_of};
use single::Single;
use std::alloc::Global;
use tables::{bytes_of, from_bytes, to_pattern};

fn main(rt: HostRuntime) -> anyhow::Result<()> {
    run(&rt)
}

// Each program has this loop: a function of a library that reads a program's input could promise nothing of its result.
fn run(rt: &HostRuntime) -> anyhow::Result<()> {
    for line in rt.lines(rt.alloc()) {
        let line = line?;
        let words: Vec<&str> = line.as_str().split(' ').collect(rt.alloc())?;
        call(rt, words.as_slice())?;
    }
    Ok(())
}

fn call(rt: &HostRuntime, words: &[&str]) -> anyhow::Result<()> {
    let ["write", bytes, ceiling, change @ ..] = words else {
        return Err(anyhow!("a line with no call"));
    };
    let below = instrument(bytes_of(rt.alloc(), bytes)?.as_slice())?;
    let percent = ceiling.parse()?;
    write(rt, Ceiling { below, percent }, change)
}

// A single instrument with the record of a row.
fn instrument(row: &[u8]) -> anyhow::Result<Single>
    ensures { IfOk result (λ single. Holds row.now single.«record») }
{
    let mut single = Single::blank();
    single
        .fill(row)
        .ok()
        .context("a record that is not lawful")?;
    Ok(single)
}

fn write(rt: &HostRuntime, mut rack: Ceiling<Single>, change: &[&str]) -> anyhow::Result<()> {
    let heap = rt.alloc();
    let answer = match change {
        ["text", place, run] => {
            let bytes = bytes_of(heap, run)?;
            let (place, bytes) = (place.parse()?, bytes.as_slice());
            rack.write(0, Change::Text { place, bytes })
        }
        ["sample", flow, temperature] => rack.write(0, sample_of(heap, flow, temperature)?),
        [kind, value] => rack.write(0, change_of(heap, kind, value)?),
        _ => return Err(anyhow!("a write of no kind")),
    };
    tell(rt, answer, &rack)
}

// A sample, by its two patterns.
fn sample_of(heap: Global, flow: &str, temperature: &str) -> anyhow::Result<Change<'static>>
    ensures { IfOk result (λ change. Samples flow.now temperature.now change) }
{
    let flow = value_of(pattern(heap, flow)?);
    let temperature = value_of(pattern(heap, temperature)?);
    Ok(Change::Sample(Reading { flow, temperature }))
}

// A change by its kind and its one value.
fn change_of(heap: Global, kind: &str, value: &str) -> anyhow::Result<Change<'static>>
    ensures { IfOk result (λ change. Tells kind.now value.now change) }
{
    match kind {
        "polling" => Ok(Change::PollingAddress(value.parse::<u8>()?)),
        "preambles" => Ok(Change::Preambles(value.parse::<u8>()?)),
        "assembly" => Ok(Change::AssemblyNumber(value.parse::<u32>()?)),
        "changed" => Ok(Change::Changed(value == "1")),
        "key" => Ok(Change::Key(value == "1")),
        "setpoint" => Ok(Change::Setpoint(pattern(heap, value)?)),
        _ => Err(anyhow!("a write of no kind")),
    }
}

// The pattern of a word. It is read as bytes first, so that what is no digits is told as such, and digits of another number by
// their length.
fn pattern(heap: Global, word: &str) -> anyhow::Result<u32>
    ensures { IfOk result (λ pattern. pattern_at word.now ≡ Ok pattern) }
{
    let _bytes = bytes_of(heap, word)?;
    to_pattern(word).ok().context("a pattern of another length")
}

// Prints the answer to a write, and the record that the rack then tells.
fn tell(
    rt: &HostRuntime,
    answer: Result<(), RackRefusal>,
    rack: &Ceiling<Single>,
) -> anyhow::Result<()> {
    let record = serving::record_of(rack, 0).context("a rack of no channel")?;
    let told = from_bytes(rt.alloc(), &record::encode(&record))?;
    match answer {
        Ok(()) => println!(rt; "taken {told}")?,
        Err(refusal) => println!(rt; "refused {} {told}", refusal.number())?,
    }
    Ok(())
}
