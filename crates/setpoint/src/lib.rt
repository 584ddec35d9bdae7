//! A gas flow channel's setpoint: percent of full scale, held as an IEEE 754 binary32 pattern.
#![tactic(auto)]

ghost use Rattle.std.specs.Prelude.{◌≡◌, ◌^◌, ◌<◌, ◌≤◌, true, IfSome};
ghost use Rattle.std.specs.Float.{float_is_finite};
ghost use Rattle.setpoint.specs.Decoding.{Decodes};
ghost use Rattle.setpoint.specs.Lawful.{lawful?};
ghost use Rattle.setpoint.specs.LawfulLaws.{LawfulLaws};
ghost use Rattle.setpoint.specs.Load.{size_load, fitting_load};
ghost use Rattle.setpoint.specs.LoadLaw.{LoadLaw};
ghost use Rattle.setpoint.specs.Refusals.{admitted_under, code_of};
ghost use Rattle.setpoint.specs.Setpoints.{setpoint_of};
ghost use Rattle.setpoint.specs.Share.{share_of};
ghost use Rattle.setpoint.specs.Units.{in_units, full_scale?};
ghost use Rattle.setpoint.specs.Value.{value_of};

// The fields of a pattern: one bit of sign, eight of exponent, 23 of fraction.
const SIGN_BIT: u32 = 0x8000_0000;

const FRACTION_BITS: u32 = 23;

const FRACTION_MASK: u32 = 0x7f_ffff;

const EXPONENT_MASK: u32 = 0xff;

// The digit that a pattern leaves out before its fraction, unless its exponent field is 0.
const LEADING_DIGIT: u32 = 0x80_0000;

// The digits of a significand, the leading one counted.
const SIGNIFICAND_DIGITS: u32 = 24;

// The binary digits of a percent that a load counts; what else is said of loads follows from it.
const LOAD_DIGITS: u32 = 10;

// The load of 1 percent: 1,024.
const LOAD_PER_PERCENT: u32 = 1 << LOAD_DIGITS;

/// The load of 100 percent: 102,400.
pub const FULL_LOAD: u32 = 100 * LOAD_PER_PERCENT;

// The smallest value is 2 ^ -149, so a load of 1 is 2 ^ 139 of them.
const LOAD_EXPONENT: u32 = 149 - LOAD_DIGITS;

// From this exponent on a load needs more than 32 bits.
const OVERLOAD_EXPONENT: u32 = LOAD_EXPONENT + 33 - SIGNIFICAND_DIGITS;

// The pattern of 100.
const HUNDRED_PERCENT: u32 = 0x42c8_0000;

// The largest full scale, in mL/min.
const MAX_FULL_SCALE: u32 = 1_000_000;

// What the fields of a pattern stand for: a finite value is significand x 2 ^ (exponent - 149).
#[derive(Clone, Copy)]
enum Binary32 {
    NotANumber,
    Infinite {
        negative: bool,
    },
    Finite {
        negative: bool,
        significand: u32,
        exponent: u32,
    },
}

/// What a pattern is as a setpoint.
///
/// Not a `Result`: each case answers that question and none is a failure. Whoever wants the load alone has `load`, and
/// whoever wants it or a refusal `admitted`.
#[derive(Clone, Copy, PartialEq, Eq, Debug)]
pub enum Setpoint {
    NotANumber,
    // Minus infinity too; minus zero is not below zero.
    BelowZero,
    // Plus infinity.
    Infinite,
    // Its load: the least whole number that is not below the value times 1,024.
    Load(u32),
    // A finite value whose load does not fit 32 bits.
    Overload,
}

/// Why a setpoint is refused, with the number that answers a refused write.
#[derive(Clone, Copy, PartialEq, Eq, Debug)]
pub enum SetpointRefusal {
    NotANumber = 2,
    AboveCeiling = 3,
    BelowZero = 4,
}

impl SetpointRefusal {
    /// The response code that answers the write.
    pub fn code(self) -> u8
        ensures { result ≡ code_of self }
    {
        self as u8
    }
}

// The fields of a pattern, read as IEEE 754 binary32.
fn decode(pattern: u32) -> Binary32
    ensures { Decodes result (value_of pattern) }
{
    let negative = pattern >= SIGN_BIT;
    let exponent = (pattern >> FRACTION_BITS) & EXPONENT_MASK;
    let fraction = pattern & FRACTION_MASK;
    match exponent {
        0 => Binary32::Finite {
            negative,
            significand: fraction,
            exponent: 0,
        },
        EXPONENT_MASK if fraction == 0 => Binary32::Infinite { negative },
        EXPONENT_MASK => Binary32::NotANumber,
        _ => Binary32::Finite {
            negative,
            significand: LEADING_DIGIT + fraction,
            exponent: exponent - 1,
        },
    }
}

// The load of significand x 2 ^ (exponent - 149), rounded up by whole numbers alone, where it fits 32 bits.
fn scaled(significand: u32, exponent: u32) -> Option<u32>
    requires digits { significand < 2 ^ 24 }
    requires leading { 0 < exponent → 2 ^ 23 ≤ significand }
    ensures { result ≡ size_load significand exponent }
{
    if exponent < LOAD_EXPONENT {
        // Beyond all digits of the significand, more places round up to the same 0 or 1.
        let places = (LOAD_EXPONENT - exponent).min(SIGNIFICAND_DIGITS);
        Some((significand + (1 << places) - 1) >> places)
    } else if exponent < OVERLOAD_EXPONENT {
        Some(significand << (exponent - LOAD_EXPONENT))
    } else {
        None
    }
}

/// What a pattern is as a setpoint: every pattern is one of the cases.
pub fn classify(pattern: u32) -> Setpoint
    ensures { result ≡ setpoint_of (value_of pattern) }
{
    match decode(pattern) {
        Binary32::NotANumber => Setpoint::NotANumber,
        Binary32::Infinite { negative } => {
            if negative {
                Setpoint::BelowZero
            } else {
                Setpoint::Infinite
            }
        }
        Binary32::Finite {
            negative,
            significand,
            exponent,
        } => {
            if negative && significand > 0 {
                return Setpoint::BelowZero;
            }
            scaled(significand, exponent).map_or(Setpoint::Overload, Setpoint::Load)
        }
    }
}

/// The load of a setpoint, where it has one that fits 32 bits.
pub fn load(pattern: u32) -> Option<u32>
    ensures value { result ≡ fitting_load (value_of pattern) }
    ensures least { LoadLaw (value_of pattern) }
{
    match classify(pattern) {
        Setpoint::Load(load) => Some(load),
        _ => None,
    }
}

/// The load of a setpoint under a ceiling in whole percent, or why the setpoint is refused.
pub fn admitted(pattern: u32, ceiling: u8) -> Result<u32, SetpointRefusal>
    ensures { result ≡ admitted_under ceiling (value_of pattern) }
{
    let limit = u32::from(ceiling) * LOAD_PER_PERCENT;
    match classify(pattern) {
        Setpoint::NotANumber => Err(SetpointRefusal::NotANumber),
        Setpoint::BelowZero => Err(SetpointRefusal::BelowZero),
        Setpoint::Load(load) if load <= limit => Ok(load),
        _ => Err(SetpointRefusal::AboveCeiling),
    }
}

/// Whether a setpoint is worth 0 to 100 percent, and is not minus zero.
pub fn lawful(pattern: u32) -> bool
    ensures value { result ≡ lawful? pattern }
    ensures laws { LawfulLaws pattern }
{
    // Without a sign, patterns are in the order of their values; those with one are larger numbers.
    pattern <= HUNDRED_PERCENT
}

/// The share of a channel: its setpoint's load times its full scale in mL/min.
pub fn share(load: u32, full_scale: u32) -> u64
    ensures { result ≡ share_of load full_scale }
{
    u64::from(load) * u64::from(full_scale)
}

/// Whether a full scale, in mL/min, is one that a record may have.
pub fn is_full_scale(full_scale: u32) -> bool
    ensures { result ≡ full_scale? full_scale }
{
    matches!(full_scale, 1..=MAX_FULL_SCALE)
}

/// A lawful setpoint in mL/min, as a pattern: percent times full scale, then divided by 100, each rounded once.
pub fn in_units(pattern: u32, full_scale: u32) -> Option<u32>
    ensures value { result ≡ in_units pattern full_scale }
    ensures number { IfSome result (λ units. float_is_finite (value_of units) ≡ true) }
{
    if lawful(pattern) && is_full_scale(full_scale) {
        // The full scale is exact: binary32 has every whole number up to 2 ^ 24.
        let units = f32::from_bits(pattern) * full_scale as f32 / 100.0;
        Some(units.to_bits())
    } else {
        None
    }
}

#[cfg(test)]
mod tests {
    use super::*;

    #[test]
    fn loads(rt: HostRuntime) {
        assert_eq!(rt; load(0x41c8_0000), Some(25_600));
        assert_eq!(rt; load(0x3dcc_cccd), Some(103));
        assert_eq!(rt; load(0x0000_0001), Some(1));
        assert_eq!(rt; load(0x8000_0000), Some(0));
        assert_eq!(rt; load(0x42c8_0000), Some(102_400));
        assert_eq!(rt; classify(0x7f7f_ffff), Setpoint::Overload);
    }

    #[test]
    fn refusals(rt: HostRuntime) {
        assert_eq!(rt;
            admitted(0x42c8_0001, 100),
            Err(SetpointRefusal::AboveCeiling)
        );
        assert_eq!(rt; admitted(0x8000_0001, 100), Err(SetpointRefusal::BelowZero));
        assert_eq!(rt; admitted(0xff80_0000, 100), Err(SetpointRefusal::BelowZero));
        assert_eq!(rt;
            admitted(0x7fc0_0000, 100),
            Err(SetpointRefusal::NotANumber)
        );
        assert_eq!(rt; SetpointRefusal::AboveCeiling.code(), 3);
    }

    #[test]
    fn units(rt: HostRuntime) {
        assert_eq!(rt; in_units(0x41c8_0000, 1_000), Some(0x437a_0000));
        assert_eq!(rt; in_units(0x42c8_0000, 0), None);
        assert_eq!(rt; in_units(0x8000_0000, 1_000), None);
        assert!(rt; is_full_scale(MAX_FULL_SCALE));
        assert!(rt; !is_full_scale(MAX_FULL_SCALE + 1));
    }
}
