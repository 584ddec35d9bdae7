//! The data of replies.

ghost use Rattle.std.specs.Prelude.{◌≡◌, ◌∷◌};
ghost use Rattle.record.specs.Bytes.{bytes32};
ghost use Rattle.record.specs.Readings.{pattern_of};
ghost use Rattle.line.specs.Replies.{unique_identifier_data, setpoint_data};

use crate::addressing::MANUFACTURER;
use crate::judging::PERCENT;
use record::{Fields, pattern_of, u24_to_be_bytes};

// Stands before the manufacturer in the data of an identity.
const EXPANSION: u8 = 0xFE;

/// FE, the manufacturer, the device type, and the identification number last. Between them 2 preambles
/// that a request needs at least, revision 5 of the universal and 1 of the device's own commands,
/// revision 1 of the software, hardware revision 1 on RS-485, no flags.
pub(crate) fn unique_identifier_data(fields: Fields) -> [u8; 12]
    ensures { result ≡ unique_identifier_data fields }
{
    let [a, b, c] = u24_to_be_bytes(fields.identification);
    [
        EXPANSION,
        MANUFACTURER,
        fields.device_type,
        2,
        5,
        1,
        1,
        8,
        0,
        a,
        b,
        c,
    ]
}

/// The flow unit and the pattern of the flow.
pub(crate) fn flow_data(unit: u8, flow: f32) -> [u8; 5]
    ensures { result ≡ unit ∷ bytes32 (pattern_of flow) }
{
    let [a, b, c, d] = pattern_of(flow).to_be_bytes();
    [unit, a, b, c, d]
}

/// Percent, the setpoint, the flow unit, the setpoint in units.
pub(crate) fn setpoint_data(fields: Fields) -> [u8; 10]
    ensures { result ≡ setpoint_data fields }
{
    let units = setpoint::in_units(fields.setpoint, fields.full_scale).unwrap_or(0);
    let [a, b, c, d] = fields.setpoint.to_be_bytes();
    let [e, f, g, h] = units.to_be_bytes();
    [PERCENT, a, b, c, d, fields.flow_unit, e, f, g, h]
}
