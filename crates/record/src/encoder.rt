//! From a record to its bytes.
ghost use Rattle.std.specs.Prelude.{◌≡◌};
ghost use Rattle.record.specs.Inverse.{ReadsBack};
ghost use Rattle.record.specs.Lawful.{Lawful};
ghost use Rattle.record.specs.Layout.{flags_of, field_bytes, reading_bytes, encoded};

use crate::bytes::u24_to_be_bytes;
use crate::layout::*;
use crate::{Fields, Reading, Record, pattern_of};

/// The bytes of any record, lawful or not. Those of a lawful one decode to the same record.
pub fn encode(record: &Record) -> [u8; RECORD_LENGTH]
    ensures value { result ≡ encoded «record».now }
    ensures back { Lawful «record».now → ReadsBack «record».now result }
{
    let mut bytes = [0; RECORD_LENGTH];
    bytes[0..FLOW_AT].copy_from_slice(&field_bytes(record.fields));
    bytes[FLOW_AT..TEXT_AT].copy_from_slice(&reading_bytes(record.reading));
    bytes[TEXT_AT..RESERVED_AT].copy_from_slice(&record.text);
    bytes
}

fn field_bytes(fields: Fields) -> [u8; FIELDS_LENGTH]
    ensures { result ≡ field_bytes fields }
{
    let [i, j, k] = u24_to_be_bytes(fields.identification);
    let [a, b, c] = u24_to_be_bytes(fields.assembly_number);
    let [s, t, u, v] = fields.setpoint.to_be_bytes();
    let [w, x, y, z] = fields.full_scale.to_be_bytes();
    let (address, preambles) = (fields.polling_address, fields.preambles);
    let (ceiling, unit) = (fields.ceiling, fields.flow_unit);
    [
        fields.device_type,
        i,
        j,
        k,
        address,
        preambles,
        a,
        b,
        c,
        flags(fields),
        s,
        t,
        u,
        v,
        ceiling,
        unit,
        w,
        x,
        y,
        z,
    ]
}

fn flags(fields: Fields) -> u8
    ensures { result ≡ flags_of fields }
{
    u8::from(fields.changed) + 2 * u8::from(fields.key_open)
}

fn reading_bytes(reading: Reading) -> [u8; READING_LENGTH]
    ensures { result ≡ reading_bytes reading }
{
    let [a, b, c, d] = pattern_of(reading.flow).to_be_bytes();
    let [e, f, g, h] = pattern_of(reading.temperature).to_be_bytes();
    [a, b, c, d, e, f, g, h]
}
