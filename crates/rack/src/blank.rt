//! A record to begin with.
ghost use Rattle.std.specs.Prelude.{◌≡◌};
ghost use Rattle.record.specs.Lawful.{Lawful};
ghost use Rattle.rack.specs.Blank.{blank_record};

use record::{Fields, MIN_PREAMBLES, Reading, Record, TEXT_LENGTH, value_of};

/// A lawful record to begin with: everything at 0 but two preambles and a full scale of 1 mL/min.
pub fn blank_record() -> Record
    ensures value { result ≡ blank_record }
    ensures lawful { Lawful result }
{
    Record {
        fields: Fields {
            device_type: 0,
            identification: 0,
            polling_address: 0,
            preambles: MIN_PREAMBLES,
            assembly_number: 0,
            changed: false,
            key_open: false,
            setpoint: 0,
            ceiling: 0,
            flow_unit: 0,
            full_scale: 1,
        },
        reading: Reading {
            flow: value_of(0),
            temperature: value_of(0),
        },
        text: [0; TEXT_LENGTH],
    }
}
