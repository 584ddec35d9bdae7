//! A single instrument: a rack of one channel.
#![tactic(auto)]

mod single;
mod single_rack;

pub use single::Single;
