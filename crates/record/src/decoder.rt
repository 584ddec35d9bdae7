//! From the bytes of a record to the record.
ghost use Rattle.std.specs.Prelude.{◌≡◌, length, is_ok, IfErr, if◌then◌else◌, OnOk};
ghost use Rattle.std.specs.Result.{result_err};
ghost use Rattle.record.specs.Faults.{fault_of, FirstFault};
ghost use Rattle.record.specs.Inverse.{EncodesAgain};
ghost use Rattle.record.specs.Layout.{fields_at, decoded};
ghost use Rattle.record.specs.Numbers.{text_length};

use crate::bytes::{bit, u24_at, u32_at};
use crate::faults::check;
use crate::layout::*;
use crate::{Fields, Reading, Record, RecordFault, value_of};

/// Fills `record` from its bytes, unless a field is out of range; `record` then stays as it was.
pub fn decode(bytes: &[u8; RECORD_LENGTH], record: &mut Record) -> Result<(), RecordFault>
    ensures fault { result_err result ≡ fault_of bytes.now }
    ensures first { IfErr result (λ fault. FirstFault bytes.now fault) }
    ensures after { «record».new ≡ (if is_ok result then decoded bytes.now else «record».old) }
    ensures again { OnOk result (EncodesAgain bytes.now «record».new) }
{
    check(bytes)?;
    *record = record_at(bytes);
    Ok(())
}

/// The record in 80 bytes by the places of its fields, in range or not.
pub fn record_at(bytes: &[u8; RECORD_LENGTH]) -> Record
    ensures { result ≡ decoded bytes.now }
{
    let mut text = [0; TEXT_LENGTH];
    text.copy_from_slice(text_of(bytes));
    Record {
        fields: fields_at(bytes),
        reading: Reading {
            flow: value_of(u32_at(bytes, FLOW_AT)),
            temperature: value_of(u32_at(bytes, TEMPERATURE_AT)),
        },
        text,
    }
}

/// The text bytes of a record in its 80 bytes, where they stand: whoever asks for one of them copies none.
pub fn text_of(bytes: &[u8; RECORD_LENGTH]) -> &[u8]
    ensures value { result.now ≡ (decoded bytes.now).text }
    ensures length { length result.now ≡ text_length }
{
    &bytes[TEXT_AT..RESERVED_AT]
}

fn fields_at(bytes: &[u8; RECORD_LENGTH]) -> Fields
    ensures { result ≡ fields_at bytes.now }
{
    Fields {
        device_type: bytes[DEVICE_TYPE_AT],
        identification: u24_at(bytes, IDENTIFICATION_AT),
        polling_address: bytes[POLLING_ADDRESS_AT],
        preambles: bytes[PREAMBLES_AT],
        assembly_number: u24_at(bytes, ASSEMBLY_NUMBER_AT),
        changed: bit(bytes[FLAGS_AT], CHANGED_BIT),
        key_open: bit(bytes[FLAGS_AT], KEY_BIT),
        setpoint: u32_at(bytes, SETPOINT_AT),
        ceiling: bytes[CEILING_AT],
        flow_unit: bytes[FLOW_UNIT_AT],
        full_scale: u32_at(bytes, FULL_SCALE_AT),
    }
}
