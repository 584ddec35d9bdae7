//! What several programs read in the lines of their tables, and what they print.
#![tactic(auto)]

mod files;
mod parts;
mod setpoints;
mod words;

pub use files::{Byte, Checked, Filled, Filling};
pub use parts::{Letters, MasterName, SpacedHex, Width};
pub use setpoints::{Admitted, Classified, Units, YesNo};
pub use words::{UNTOUCHED, WordFault, bytes_of, from_bytes, to_bytes, to_pattern};
