//! What a master asks the panel, and what comes of it.

use crate::PREAMBLES;
use crate::channels::SUPPLY;
use crate::parts::{Part, show_parts};
use anyhow::Context;
use frame::RequestParts;
use line::ANSWER_ROOM;
use master::{flow_pattern, long_address};
use panel::Panel;
use rack::Rack;
use record::value_of;
use shelf::Shelf;
use tables::SpacedHex;

// Numbers of a master's requests. They are its own: `line` tells what channels do.
//
// "Read primary variable": the flow.
const READ_FLOW: u8 = 1;

// "Write setpoint", in percent.
const WRITE_SETPOINT: u8 = 236;

// The code of a percentage, in front of a setpoint.
const PERCENT: u8 = 0x39;

const IDENTIFIER_REPLY: [Part; 9] = [
    Part(5, "preambles, as many as the channel holds"),
    Part(1, "start of a reply with a long address"),
    Part(5, "address, as received"),
    Part(1, "command, as received"),
    Part(1, "count of the status and data bytes"),
    Part(1, "first status: response code 0"),
    Part(1, "second status: configuration not changed"),
    Part(12, "data: the unique identifier"),
    Part(1, "check"),
];

const FLOW_REPLY: [Part; 9] = [
    Part(5, "preambles"),
    Part(1, "start"),
    Part(5, "address, as received"),
    Part(1, "command, as received"),
    Part(1, "count"),
    Part(1, "first status"),
    Part(1, "second status"),
    Part(5, "data: the unit code and the flow"),
    Part(1, "check"),
];

// The reply of a channel with a short address to a setpoint that is granted.
const GRANT: [Part; 8] = [
    Part(5, "preambles"),
    Part(1, "start of a reply with a short address"),
    Part(1, "address, as received"),
    Part(1, "command, as received"),
    Part(1, "count"),
    Part(2, "status bytes: response code 0"),
    Part(
        10,
        "data: 39, the setpoint, the unit code, the setpoint in units",
    ),
    Part(1, "check"),
];

// The same where it is not: no data.
const DENIAL: [Part; 7] = [
    Part(5, "preambles"),
    Part(1, "start of a reply with a short address"),
    Part(1, "address, as received"),
    Part(1, "command, as received"),
    Part(1, "count"),
    Part(2, "status bytes"),
    Part(1, "check"),
];

// Sets a panel up over the rack, and lets it hear the question for a tag and what the master asks then.
pub(crate) fn follow(rt: &HostRuntime, shelf: Shelf, question: &[u8]) -> anyhow::Result<()> {
    let mut panel = Panel::new(shelf);
    panel.set_up(SUPPLY)?;
    println!(rt; "\n7. The panel is set up with this supply, and hears the question:")?;
    let mut line = [0; ANSWER_ROOM];
    let len = hear(rt, &mut panel, question, &IDENTIFIER_REPLY, &mut line)?;
    let reply = line.get(0..len).unwrap_or(&[]);
    let address = long_address(reply).context("a reply with no identifier")?;
    ask_flow(rt, &mut panel, &address)?;
    set_behind_key(rt, &mut panel)?;
    fill_header(rt, &mut panel)?;
    send_damaged(rt, &mut panel)
}

// Asks the channel with this long address for its flow.
fn ask_flow<R: Rack>(rt: &HostRuntime, panel: &mut Panel<R>, address: &[u8]) -> anyhow::Result<()> {
    println!(rt; "\n8. The flow, asked with the long address from the reply:")?;
    let question = RequestParts {
        preambles: PREAMBLES,
        address,
        command: READ_FLOW,
        data: &[],
    };
    let mut line = [0; ANSWER_ROOM];
    let len = ask(rt, panel, question, &FLOW_REPLY, &mut line)?;
    let reply = line.get(0..len).unwrap_or(&[]);
    let flow = flow_pattern(reply).context("a reply with no flow")?;
    println!(rt; "     the flow is {}", value_of(flow))?;
    Ok(())
}

// Channel 2, at polling address 3, takes no setpoint before its key is opened.
fn set_behind_key<R: Rack>(rt: &HostRuntime, panel: &mut Panel<R>) -> anyhow::Result<()> {
    println!(rt; "\n9. 25 percent for channel 2, whose key is shut. Response code 7:")?;
    ask_setpoint(rt, panel, 0x83, 0x41C8_0000, &DENIAL)?;
    println!(rt; "\n10. Its key is opened, and the setpoint is granted:")?;
    panel.key(2, true)?;
    ask_setpoint(rt, panel, 0x83, 0x41C8_0000, &GRANT)
}

// 85 percent of channel 0 is just what the others leave of the supply.
fn fill_header<R: Rack>(rt: &HostRuntime, panel: &mut Panel<R>) -> anyhow::Result<()> {
    println!(rt;
        "\n11. The least setpoint above 85 percent for channel 0, more than the others leave of the supply. Response code 16:"
    )?;
    ask_setpoint(rt, panel, 0x81, 0x42AA_0001, &DENIAL)?;
    println!(rt; "\n12. 85 percent, just what they leave:")?;
    ask_setpoint(rt, panel, 0x81, 0x42AA_0000, &GRANT)
}

// A request whose check byte was damaged.
fn send_damaged<R: Rack>(rt: &HostRuntime, panel: &mut Panel<R>) -> anyhow::Result<()> {
    println!(rt; "\n13. 0 percent for channel 0, with a damaged check. A communication error:")?;
    let mut sent = [0; ANSWER_ROOM];
    let data = setpoint_data(0);
    let len = frame::make_request(setpoint_request(&[0x81], &data), &mut sent)?;
    let damaged = sent.get_mut(0..len).context("a request without bytes")?;
    if let Some(check) = damaged.last_mut() {
        *check ^= 0x01;
    }
    let mut line = [0; ANSWER_ROOM];
    println!(rt; "     {}", SpacedHex(damaged))?;
    hear(rt, panel, damaged, &DENIAL, &mut line)?;
    Ok(())
}

fn setpoint_data(pattern: u32) -> [u8; 5] {
    let [b0, b1, b2, b3] = pattern.to_be_bytes();
    [PERCENT, b0, b1, b2, b3]
}

fn setpoint_request<'a>(address: &'a [u8], data: &'a [u8]) -> RequestParts<'a> {
    RequestParts {
        preambles: PREAMBLES,
        address,
        command: WRITE_SETPOINT,
        data,
    }
}

// Asks the channel with this short address to take a setpoint.
fn ask_setpoint<R: Rack>(
    rt: &HostRuntime,
    panel: &mut Panel<R>,
    address: u8,
    pattern: u32,
    parts: &[Part],
) -> anyhow::Result<()> {
    let data = setpoint_data(pattern);
    let mut line = [0; ANSWER_ROOM];
    ask(
        rt,
        panel,
        setpoint_request(&[address], &data),
        parts,
        &mut line,
    )?;
    Ok(())
}

// Sends a request, and lets the panel hear it.
fn ask<R: Rack>(
    rt: &HostRuntime,
    panel: &mut Panel<R>,
    question: RequestParts<'_>,
    parts: &[Part],
    line: &mut [u8],
) -> anyhow::Result<usize> {
    let mut sent = [0; ANSWER_ROOM];
    let len = frame::make_request(question, &mut sent)?;
    let sent = sent.get(0..len).context("a request without bytes")?;
    println!(rt; "     {}", SpacedHex(sent))?;
    hear(rt, panel, sent, parts, line)
}

// Lets the panel hear a transmission and the gap after it, prints who answers and the parts of the answer, and tells its length.
fn hear<R: Rack>(
    rt: &HostRuntime,
    panel: &mut Panel<R>,
    sent: &[u8],
    parts: &[Part],
    line: &mut [u8],
) -> anyhow::Result<usize> {
    for byte in sent {
        panel.character(*byte, 0)?;
    }
    let answer = panel.gap(line)?.context("no channel answers")?;
    println!(rt; "     channel {} answers:", answer.channel)?;
    show_parts(rt, line, parts)?;
    Ok(answer.length)
}

#[cfg(test)]
mod tests {
    use super::*;
    use panel::is_alone;
    use rack::blank_record;
    use record::{RECORD_LENGTH, encode};
    use std::test::Fail;

    const TWO_RECORDS: usize = 2 * RECORD_LENGTH;

    // The record of a channel at this polling address, with its key open.
    fn record_at(polling_address: u8) -> [u8; RECORD_LENGTH] {
        let mut record = blank_record();
        record.fields.identification = u32::from(polling_address);
        record.fields.polling_address = polling_address;
        record.fields.ceiling = 100;
        record.fields.key_open = true;
        encode(&record)
    }

    fn two_records() -> [u8; TWO_RECORDS] {
        let mut file = [0; TWO_RECORDS];
        file[0..RECORD_LENGTH].copy_from_slice(&record_at(0));
        file[RECORD_LENGTH..TWO_RECORDS].copy_from_slice(&record_at(1));
        file
    }

    fn panel_of(file: &[u8]) -> Result<Panel<Shelf>, Fail> {
        let mut shelf = Shelf::blank();
        shelf.fill(file)?;
        let mut panel = Panel::new(shelf);
        panel.set_up(SUPPLY)?;
        Ok(panel)
    }

    fn ask_for_25_percent(panel: &mut Panel<Shelf>) -> Result<(), Fail> {
        let data = setpoint_data(0x41C8_0000);
        let mut sent = [0; ANSWER_ROOM];
        let len = frame::make_request(setpoint_request(&[0x81], &data), &mut sent)?;
        for byte in sent.get(0..len).unwrap_or(&[]) {
            panel.character(*byte, 0)?;
        }
        let mut line = [0; ANSWER_ROOM];
        panel.gap(&mut line)?;
        Ok(())
    }

    #[test]
    fn a_channel_is_as_it_is_alone(rt: HostRuntime) -> Result<(), Fail> {
        let mut panel = panel_of(&two_records())?;
        let mut lone = panel_of(&record_at(1))?;
        assert!(rt; is_alone(&panel, 1, &lone));
        assert!(rt; !is_alone(&panel, 0, &lone));
        ask_for_25_percent(&mut panel)?;
        assert!(rt; !is_alone(&panel, 1, &lone));
        ask_for_25_percent(&mut lone)?;
        assert!(rt; is_alone(&panel, 1, &lone));
        Ok(())
    }
}
