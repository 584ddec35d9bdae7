//! Answers to questions about setpoints.

ghost use Rattle.std.specs.Prelude.{Some};
ghost use Rattle.tables.specs.Setpoints.{classified_text, admitted_text, yes_no_text, units_text};

use hexdigits::Hex;
use setpoint::{Setpoint, SetpointRefusal};
use std::fmt;

/// What a pattern is as a setpoint.
#[derive(Clone, Copy)]
pub struct Classified(pub Setpoint);

impl fmt::Display for Classified {
    ghost output = { λ answer. Some (classified_text answer.0) };

    fn fmt<W: fmt::Write>(&self, f: &mut fmt::Formatter<W>) -> fmt::Result {
        match self.0 {
            Setpoint::NotANumber => f.write_str("nan"),
            Setpoint::BelowZero => f.write_str("below zero"),
            Setpoint::Infinite => f.write_str("infinite"),
            Setpoint::Overload => f.write_str("overload"),
            Setpoint::Load(load) => write!(f, "load {load}"),
        }
    }
}

/// The load of a setpoint under a ceiling, or the code of its refusal.
#[derive(Clone, Copy)]
pub struct Admitted(pub Result<u32, SetpointRefusal>);

impl fmt::Display for Admitted {
    ghost output = { λ answer. Some (admitted_text answer.0) };

    fn fmt<W: fmt::Write>(&self, f: &mut fmt::Formatter<W>) -> fmt::Result {
        match self.0 {
            Ok(load) => write!(f, "load {load}"),
            Err(refusal) => write!(f, "refused {}", refusal.code()),
        }
    }
}

/// An answer of two, printed as a word.
#[derive(Clone, Copy)]
pub struct YesNo(pub bool);

impl fmt::Display for YesNo {
    ghost output = { λ answer. Some (yes_no_text answer.0) };

    fn fmt<W: fmt::Write>(&self, f: &mut fmt::Formatter<W>) -> fmt::Result {
        f.write_str(if self.0 { "yes" } else { "no" })
    }
}

/// The pattern of a setpoint in the units of a full scale, where there is one.
#[derive(Clone, Copy)]
pub struct Units(pub Option<u32>);

impl fmt::Display for Units {
    ghost output = { λ answer. Some (units_text answer.0) };

    fn fmt<W: fmt::Write>(&self, f: &mut fmt::Formatter<W>) -> fmt::Result {
        match self.0 {
            Some(units) => write!(f, "{}", Hex(&units.to_be_bytes())),
            None => f.write_str("none"),
        }
    }
}
