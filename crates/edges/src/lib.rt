//! Worked examples, proved in one table: about the definitions that the contracts of the codecs and of a panel cite, and about what
//! `linerun` prints.
#![tactic(auto)]

ghost use Rattle.std.specs.Prelude.{◌≡◌};
ghost use Rattle.edges.specs.Edges.{Edges};

/// Has nothing to compute: it stands for the rows that its clause names.
pub fn edges_hold() -> u8
    ensures nothing { result ≡ 0 }
    ensures rows { Edges }
{
    0
}
