//! The panel: at most fifteen channels of a rack behind one line and one supply header.
#![tactic(auto)]

mod characters;
mod driver;
mod driving;
mod ending;
mod isolation;
mod looking;
mod operations;
mod setting_up;
mod state;

pub use driver::Driver;
pub use driving::{work, work_on};
pub use isolation::is_alone;
pub use serving::Answer;
pub use state::Panel;
