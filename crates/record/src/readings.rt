//! What a channel measures, and its patterns.
ghost use Rattle.std.specs.Prelude.{◌≡◌, Decides};
ghost use Rattle.setpoint.specs.Value.{value_of};
ghost use Rattle.record.specs.Readings.{pattern_of, finite?, FiniteReading};

/// What a channel measures: any two binary32 values.
#[derive(Clone, Copy)]
pub struct Reading {
    pub flow: f32,
    pub temperature: f32,
}

impl Reading {
    /// Whether it may stand in a lawful record: neither value is infinite or a NaN.
    pub fn is_finite(self) -> bool
        ensures value { result ≡ finite? self }
        ensures means { Decides result (FiniteReading self) }
    {
        self.flow.is_finite() && self.temperature.is_finite()
    }
}

/// The pattern of a value. Every NaN has the same one, 7FC00000 hexadecimal, since a NaN's own bits are not defined.
pub fn pattern_of(value: f32) -> u32
    ensures { result ≡ pattern_of value }
{
    std::num::f32_to_bits_with_nan(value)
}

/// The value of a pattern, of a NaN's too.
pub fn value_of(pattern: u32) -> f32
    ensures { result ≡ value_of pattern }
{
    std::num::f32_from_bits_with_nan(pattern)
}
