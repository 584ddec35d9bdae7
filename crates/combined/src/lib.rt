//! Racks made of racks: a ceiling over any rack, and any two racks side by side.
#![tactic(auto)]

mod ceiling;
mod side_by_side;

pub use ceiling::Ceiling;
pub use side_by_side::SideBySide;
