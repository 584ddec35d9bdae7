//! What a panel keeps.

ghost use Rattle.std.proofs.Props.{props};
ghost use Rattle.panel.specs.Few.{Few};

use rack::Rack;
use receiver::Receiver;

/// A panel over a rack.
#[derive(Drop)]
pub struct Panel<R: Rack> {
    pub(crate) rack: R,
    // The characters since the last taken gap.
    pub(crate) receiver: Receiver,
    // In mL/min, once a set-up was taken.
    pub(crate) supply: Option<u32>,
    // A set-up of more channels is refused, and a rack keeps their number.
    ghost few: { Few supply (R.Rack.records rack) } by { Prim.hlevel props },
}
