//! The channels of a rack on the line: which one a transmission means, what it writes through the
//! rack, and what it answers.
//!
//! Rack and channel stay two parameters, as in `Rack`: a struct of both would be needed twice, to
//! read and to write.
#![tactic(auto)]

mod answering;
mod answers;
mod asking;
mod choosing;
mod reading;
mod serving;
mod writing;

pub use answers::Answer;
pub use choosing::sole_meant;
pub use reading::record_of;
pub use serving::serve;
