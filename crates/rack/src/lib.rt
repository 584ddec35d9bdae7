//! Racks of channels, by the list of records that they mean.
#![tactic(auto)]

mod blank;
mod changes;
mod files;
mod racks;
mod refusal;
mod writes;

pub use blank::blank_record;
pub use changes::Change;
pub use files::{FileFault, RecordError, check_record};
pub use racks::{MAX_CHANNELS, Rack};
pub use refusal::RackRefusal;
pub use writes::apply;
