//! Plays a recording of a panel: a driver that works the panel by its events, and prints what comes of them.
//!
//! Hints on inlining are for speed alone: what each character takes stands in one loop (docs/PERFORMANCE.md).
#![tactic(auto)]

mod driving;
mod pausing;
mod playing;
mod progress;

pub use driving::Player;
pub use playing::{PlayFault, play, run};
pub use progress::Progress;
