//! The one write to a record.
ghost use Rattle.std.specs.Prelude.{◌≡◌, ◌^◌, ◌<◌, if◌then◌else◌, Ok, Err, OnOk};
ghost use Rattle.refusals.specs.Filling.{placed};
ghost use Rattle.record.specs.Lawful.{Lawful};
ghost use Rattle.rack.specs.Changes.{written, answer_of, record_after, stored_pattern, text_run?};
ghost use Rattle.rack.specs.Edits.{edit_of};
ghost use Rattle.rack.specs.Puts.{Puts};
ghost use Rattle.rack.specs.Refusals.{numbered, out_of_form};

use crate::changes::Change;
use crate::refusal::RackRefusal;
use record::{MAX_POLLING_ADDRESS, MAX_PREAMBLES, MAX_U24, MIN_PREAMBLES, Record, TEXT_LENGTH};
use refusals::Refusal;

const MAX_TEXT_RUN: usize = 24;

const MINUS_ZERO: u32 = 0x8000_0000;

/// Writes one field of a record, or refuses and leaves it as it was.
///
/// That a lawful record stays lawful is a clause and not a type: a record that is not lawful can be written too.
pub fn apply(record: &mut Record, change: Change<'_>) -> Result<(), RackRefusal>
    ensures answer { numbered result ≡ answer_of (written (edit_of change.entry) «record».old) }
    ensures after { «record».new ≡
        record_after (written (edit_of change.entry) «record».old) «record».old }
    ensures puts { OnOk result (Puts (edit_of change.entry) «record».old «record».new) }
    ensures lawful { Lawful «record».old → Lawful «record».new }
{
    match change {
        Change::PollingAddress(address) => {
            if address > MAX_POLLING_ADDRESS {
                return Err(RackRefusal::InvalidSelection);
            }
            record.fields.polling_address = address;
        }
        Change::Preambles(preambles) => {
            if preambles < MIN_PREAMBLES {
                return Err(RackRefusal::TooSmall);
            }
            if preambles > MAX_PREAMBLES {
                return Err(RackRefusal::TooLarge);
            }
            record.fields.preambles = preambles;
        }
        Change::AssemblyNumber(number) => {
            if number > MAX_U24 {
                return Err(RackRefusal::TooLarge);
            }
            record.fields.assembly_number = number;
        }
        Change::Changed(changed) => record.fields.changed = changed,
        Change::Key(open) => record.fields.key_open = open,
        Change::Sample(reading) => {
            if !reading.is_finite() {
                return Err(Refusal::Reading.into());
            }
            record.reading = reading;
        }
        Change::Text { place, bytes } => return put_text(&mut record.text, place, bytes),
        Change::Setpoint(pattern) => {
            setpoint::admitted(pattern, record.fields.ceiling)?;
            record.fields.setpoint = stored(pattern);
        }
    }
    Ok(())
}

// The pattern that is stored of a setpoint: minus zero is stored as zero.
fn stored(pattern: u32) -> u32
    ensures value { result ≡ stored_pattern pattern }
    ensures bound { result < 2 ^ 32 }
{
    if pattern == MINUS_ZERO { 0 } else { pattern }
}

// Writes a run of text bytes from a place on.
fn put_text(text: &mut [u8; TEXT_LENGTH], place: usize, bytes: &[u8]) -> Result<(), RackRefusal>
    ensures answer { numbered result ≡
        (if text_run? place bytes.now then Ok tt else Err out_of_form) }
    ensures after { text.new ≡
        (if text_run? place bytes.now then placed place bytes.now text.old else text.old) }
{
    if bytes.len() > MAX_TEXT_RUN || place > TEXT_LENGTH - bytes.len() {
        return Err(Refusal::OutOfForm.into());
    }
    text[place..place + bytes.len()].copy_from_slice(bytes);
    Ok(())
}
