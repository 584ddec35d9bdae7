//! Works through a table of codec calls, one a line, and prints what each answers, with the lent buffer as the call left it:
//!
//!     pack TEXT LENGTH
//!     unpack PACKED LENGTH
//!     make PREAMBLES ADDRESS COMMAND DATA LENGTH
//!     read BYTES
//!
//! Bytes are capital hexadecimal, or '-' where there are none; LENGTH is that of the lent buffer, whose bytes are A5 before.
#![tactic(auto)]

use anyhow::anyhow;
use frame::{RequestParts, Transmission};
use refusals::Refusal;
use tables::{MasterName, UNTOUCHED, Width, bytes_of, from_bytes};

fn main(rt: HostRuntime) -> anyhow::Result<()> {
    run(&rt)
}

// Each program has this loop: a function of a library that reads a program's input could promise nothing of its result.
fn run(rt: &HostRuntime) -> anyhow::Result<()> {
    for line in rt.lines(rt.alloc()) {
        let line = line?;
        let words: Vec<&str> = line.as_str().split(' ').collect(rt.alloc())?;
        call(rt, words.as_slice())?;
    }
    Ok(())
}

fn call(rt: &HostRuntime, words: &[&str]) -> anyhow::Result<()> {
    match words {
        ["pack", text, length] => regroup(rt, text::pack, text, length),
        ["unpack", packed, length] => regroup(rt, text::unpack, packed, length),
        ["make", parts @ .., length] => make(rt, parts, length),
        ["read", sent] => read(rt, sent),
        _ => Err(anyhow!("a line with no call")),
    }
}

fn regroup<F: FnOnce(&[u8], &mut [u8]) -> Result<usize, Refusal> + Drop>(
    rt: &HostRuntime,
    codec: F,
    word: &str,
    length: &str,
) -> anyhow::Result<()>
    requires { F.IsAlwaysCallable codec }
{
    let bytes = bytes_of(rt.alloc(), word)?;
    let mut out = lent(rt, length)?;
    let answer = codec(bytes.as_slice(), out.as_mut_slice());
    tell(rt, answer, out.as_slice())
}

fn make(rt: &HostRuntime, parts: &[&str], length: &str) -> anyhow::Result<()> {
    let [preambles, address, command, data] = parts else {
        return Err(anyhow!("a line with no call"));
    };
    let address = bytes_of(rt.alloc(), address)?;
    let data = bytes_of(rt.alloc(), data)?;
    // The buffer first: of two words out of form the length is told.
    let mut out = lent(rt, length)?;
    let request = RequestParts {
        preambles: preambles.parse()?,
        address: address.as_slice(),
        command: command.parse()?,
        data: data.as_slice(),
    };
    let answer = frame::make_request(request, out.as_mut_slice());
    tell(rt, answer, out.as_slice())
}

// A buffer to lend.
fn lent(rt: &HostRuntime, length: &str) -> anyhow::Result<Vec<u8>> {
    Ok(vec![in rt.alloc(); UNTOUCHED; length.parse()?]?)
}

// Prints the answer of a call, and the lent buffer as the call left it.
fn tell(rt: &HostRuntime, answer: Result<usize, Refusal>, out: &[u8]) -> anyhow::Result<()> {
    let out = from_bytes(rt.alloc(), out)?;
    match answer {
        Ok(length) => println!(rt; "{length} {out}")?,
        Err(refusal) => println!(rt; "refused {} {refusal} {out}", refusal.number())?,
    }
    Ok(())
}

fn read(rt: &HostRuntime, sent: &str) -> anyhow::Result<()> {
    let sent = bytes_of(rt.alloc(), sent)?;
    match frame::read_request(sent.as_slice()) {
        Ok(request) => show(rt, request),
        Err(refusal) => Ok(println!(rt; "refused {} {refusal}", refusal.number())?),
    }
}

fn show(rt: &HostRuntime, request: Transmission<'_>) -> anyhow::Result<()> {
    let address = from_bytes(rt.alloc(), request.address.bytes())?;
    let data = from_bytes(rt.alloc(), request.data)?;
    println!(rt;
        "{} {} {} {address} {} {data}",
        request.preambles,
        MasterName(request.address.master()),
        Width(request.address),
        request.command
    )?;
    Ok(())
}
