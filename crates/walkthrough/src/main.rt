//! A whole exchange with a panel, step by step: a master asks for the channel with a tag, and then this channel for its flow;
//! setpoints are refused and granted; a damaged request changes nothing.
#![tactic(auto)]

mod channels;
mod exchanges;
mod parts;

use anyhow::Context;
use frame::{RequestParts, Transmission};
use parts::{Part, show_parts};
use std::io;
use tables::{Letters, MasterName, SpacedHex, Width};

const TAG: [u8; 8] = *b"MFC-1234";

// The long address of every channel, from the primary master.
const EVERY_CHANNEL: [u8; 5] = [0x80, 0, 0, 0, 0];

// "Read unique identifier associated with tag".
const TAG_QUESTION: u8 = 11;

pub(crate) const PREAMBLES: usize = 5;

// The parts of the question in their order.
const QUESTION: [Part; 7] = [
    Part(5, "preambles"),
    Part(1, "start of a request with a long address"),
    Part(5, "address: primary master, every channel"),
    Part(1, "command 11: read the unique identifier by tag"),
    Part(1, "count of the data bytes"),
    Part(6, "data: the packed tag"),
    Part(1, "check: the exclusive or of all bytes from the start on"),
];

fn main(rt: HostRuntime) -> anyhow::Result<()> {
    run(&rt)
}

fn run(rt: &HostRuntime) -> anyhow::Result<()> {
    let mut line = [0; 64];
    let len = make_question(rt, &mut line)?;
    let sent = line
        .get(0..len)
        .context("the question is longer than the line")?;
    show_question(rt, sent)?;

    let heard = frame::read_request(sent)?;
    show_transmission(rt, heard)?;

    let mut letters = [0; 8];
    text::unpack(heard.data, &mut letters)?;
    show_letters(rt, &letters)?;

    let shelf = channels::load(rt)?;
    channels::show_rack(rt, &shelf)?;
    exchanges::follow(rt, shelf, sent)
}

// Packs the tag and makes the question for it in the front of `line`.
fn make_question(rt: &HostRuntime, line: &mut [u8]) -> anyhow::Result<usize> {
    println!(rt; "A master looks for the channel with the tag MFC-1234.")?;
    let mut packed = [0; 6];
    text::pack(&TAG, &mut packed)?;
    show_tag(rt, &packed)?;
    let question = RequestParts {
        preambles: PREAMBLES,
        address: &EVERY_CHANNEL,
        command: TAG_QUESTION,
        data: &packed,
    };
    Ok(frame::make_request(question, line)?)
}

fn show_tag(rt: &HostRuntime, packed: &[u8]) -> io::Result<()> {
    println!(rt; "\n1. The tag as packed text, four letters in three bytes:")?;
    println!(rt; "     {}", SpacedHex(packed))
}

fn show_question(rt: &HostRuntime, sent: &[u8]) -> io::Result<()> {
    println!(rt; "\n2. The question for this tag, as the primary master sends it:")?;
    show_parts(rt, sent, &QUESTION)
}

fn show_transmission(rt: &HostRuntime, heard: Transmission<'_>) -> io::Result<()> {
    println!(rt; "\n3. The same bytes, read back:")?;
    println!(rt; "     {} preambles", heard.preambles)?;
    println!(rt;
        "     {} address {} of the {} master",
        Width(heard.address),
        SpacedHex(heard.address.bytes()),
        MasterName(heard.address.master())
    )?;
    println!(rt; "     command {}", heard.command)?;
    println!(rt;
        "     {} data bytes: {}",
        heard.data.len(),
        SpacedHex(heard.data)
    )
}

fn show_letters(rt: &HostRuntime, letters: &[u8]) -> io::Result<()> {
    println!(rt; "\n4. The data bytes, unpacked:")?;
    println!(rt; "     {}", Letters(letters))
}
