//! A shelf of records, and the record files that fill it.
#![tactic(auto)]

ghost use Rattle.std.specs.Prelude.{◌≡◌, codes};

mod filling;
mod shelf;
mod shelf_rack;

pub use shelf::{MAX_RECORDS, Shelf};

/// The record file of a program that has a shelf, in the folder that it is run in.
pub fn rack_file() -> &'static str
    ensures { result.now ≡ codes "rack.rec" }
{
    "rack.rec"
}
