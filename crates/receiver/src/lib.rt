//! The receiver of a panel: the characters of one transmission, in fixed memory.
#![tactic(auto)]

mod receiving;
mod state;

pub use state::Receiver;
