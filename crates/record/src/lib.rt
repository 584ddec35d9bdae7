//! The record of a gas flow channel: 80 bytes, of each number the most significant byte first.
#![tactic(auto)]

ghost use Rattle.std.specs.Prelude.{◌≡◌, Decides};
ghost use Rattle.record.specs.Identities.{identity_of};
ghost use Rattle.record.specs.Lawful.{in_range?, lawful?, LawfulFields, Lawful};

mod bytes;
mod decoder;
mod encoder;
mod faults;
mod layout;
mod readings;

pub use bytes::u24_to_be_bytes;
pub use decoder::{decode, record_at, text_of};
pub use encoder::encode;
pub use faults::{RecordFault, check};
use layout::MAX_CEILING;
pub use layout::{
    DATE, DESCRIPTOR, LABELS, MAX_POLLING_ADDRESS, MAX_PREAMBLES, MAX_U24, MESSAGE, MIN_PREAMBLES,
    RECORD_LENGTH, TAG, TEXT_LENGTH,
};
pub use readings::{Reading, pattern_of, value_of};

/// What a record holds beside its reading and its text.
#[derive(Clone, Copy)]
pub struct Fields {
    pub device_type: u8,
    pub identification: u32,
    pub polling_address: u8,
    /// How many preambles a response has.
    pub preambles: u8,
    pub assembly_number: u32,
    /// Whether the configuration was changed since command 38.
    pub changed: bool,
    /// The key, a term of this project: while it is shut, commands that write are refused.
    pub key_open: bool,
    /// In percent, a binary32 pattern.
    pub setpoint: u32,
    /// The ceiling, a term of this project: the largest setpoint that a write may give, in whole percent.
    pub ceiling: u8,
    /// Only passed on.
    pub flow_unit: u8,
    /// In mL/min.
    pub full_scale: u32,
}

/// What tells channels apart.
#[derive(Clone, Copy, PartialEq, Eq, Debug)]
pub struct Identity {
    pub device_type: u8,
    pub identification: u32,
}

impl Fields {
    /// Its two parts as they stand in the fields.
    pub fn identity(self) -> Identity
        ensures { result ≡ identity_of self }
    {
        Identity {
            device_type: self.device_type,
            identification: self.identification,
        }
    }
}

/// A channel's record, lawful or not.
#[derive(Clone, Copy)]
pub struct Record {
    pub fields: Fields,
    pub reading: Reading,
    /// Tag, descriptor, date and message.
    pub text: [u8; TEXT_LENGTH],
}

/// Whether every field of a record is in range and its reading is finite.
pub fn lawful(record: &Record) -> bool
    ensures value { result ≡ lawful? «record».now }
    ensures means { Decides result (Lawful «record».now) }
{
    in_range(record.fields) && record.reading.is_finite()
}

fn in_range(fields: Fields) -> bool
    ensures value { result ≡ in_range? fields }
    ensures means { Decides result (LawfulFields fields) }
{
    fields.identification <= MAX_U24
        && fields.polling_address <= MAX_POLLING_ADDRESS
        && matches!(fields.preambles, MIN_PREAMBLES..=MAX_PREAMBLES)
        && fields.assembly_number <= MAX_U24
        && setpoint::lawful(fields.setpoint)
        && fields.ceiling <= MAX_CEILING
        && setpoint::is_full_scale(fields.full_scale)
}

#[cfg(test)]
mod tests {
    use super::*;

    // Device type 70, identification 1, polling address 1, two preambles, assembly number 7, 25 percent of 1,000 mL/min.
    fn example() -> Record {
        Record {
            fields: Fields {
                device_type: 70,
                identification: 1,
                polling_address: 1,
                preambles: 2,
                assembly_number: 7,
                changed: false,
                key_open: true,
                setpoint: 0x41c8_0000,
                ceiling: 100,
                flow_unit: 171,
                full_scale: 1_000,
            },
            reading: Reading {
                flow: 250.0,
                temperature: 21.5,
            },
            text: [0x20; TEXT_LENGTH],
        }
    }

    #[test]
    fn encodes(rt: HostRuntime) {
        let bytes = encode(&example());
        assert_eq!(rt;
            &bytes[0..20],
            [
                70u8, 0, 0, 1, 1, 2, 0, 0, 7, 2, 0x41, 0xc8, 0, 0, 100, 171, 0, 0, 3, 0xe8,
            ]
            .as_slice()
        );
        assert_eq!(rt;
            &bytes[20..28],
            [0x43u8, 0x7a, 0, 0, 0x41, 0xac, 0, 0].as_slice()
        );
    }

    #[test]
    fn decodes(rt: HostRuntime) {
        let mut bytes = encode(&example());
        let mut record = example();
        record.fields.polling_address = 9;
        assert_eq!(rt; decode(&bytes, &mut record), Ok(()));
        assert_eq!(rt; record.fields.polling_address, 1);
        bytes[79] = 1;
        assert_eq!(rt; decode(&bytes, &mut record), Err(RecordFault::Reserved));
        bytes[5] = 1;
        assert_eq!(rt; decode(&bytes, &mut record), Err(RecordFault::Preambles));
    }
}
