//! The channels of the sample panel.

use anyhow::Context;
use rack::Rack;
use record::{Fields, Record, value_of};
use shelf::{Shelf, rack_file};
use std::{fs, io};
use tables::Letters;

// What the header can give, in mL/min.
pub(crate) const SUPPLY: u32 = 600_000;

// The panel's rack, from its records.
pub(crate) fn load(rt: &HostRuntime) -> anyhow::Result<Shelf> {
    let file = fs::read(rt, rack_file()).context(rack_file())?;
    let mut shelf = Shelf::blank();
    shelf.fill(file.as_slice())?;
    Ok(shelf)
}

// Prints the channels of a rack and what they draw together.
pub(crate) fn show_rack<R: Rack>(rt: &HostRuntime, rack: &R) -> anyhow::Result<()> {
    let count = rack.count();
    println!(rt;
        "\n5. The panel's rack, {count} channels from {}:",
        rack_file()
    )?;
    for channel in 0..count {
        let record = serving::record_of(rack, channel).context("a channel that is not there")?;
        show_tag(rt, channel, &record)?;
        show_channel(rt, record.fields, header::channel_share(rack, channel))?;
    }
    show_header(rt, header::total_share(rack)?)?;
    Ok(())
}

fn show_tag(rt: &HostRuntime, channel: u8, record: &Record) -> anyhow::Result<()> {
    let mut letters = [0; 8];
    text::unpack(&record.text[0..6], &mut letters)?;
    println!(rt; "     channel {channel}, tag {}", Letters(&letters))?;
    Ok(())
}

fn show_channel(rt: &HostRuntime, fields: Fields, share: u64) -> io::Result<()> {
    let address = fields.polling_address;
    let full_scale = fields.full_scale;
    let setpoint = fields.setpoint;
    let percent = value_of(setpoint);
    println!(rt; "       polling address {address}, full scale {full_scale} mL/min")?;
    print!(rt; "       setpoint {percent} percent ({setpoint:08X})")?;
    match setpoint::load(setpoint) {
        Some(load) => println!(rt; ", load {load}, share {share}"),
        None => println!(rt; ", no load"),
    }
}

fn show_header(rt: &HostRuntime, total: u64) -> io::Result<()> {
    let capacity = header::capacity(SUPPLY);
    let verdict = if header::fits(SUPPLY, total) {
        "fit"
    } else {
        "do not fit"
    };
    println!(rt; "\n6. The header: a supply of {SUPPLY} mL/min allows shares up to {capacity}.")?;
    println!(rt; "     the shares sum up to {total}: they {verdict}")
}
