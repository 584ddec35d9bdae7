//! What a setpoint is weighed by.

ghost use Rattle.std.specs.Prelude.{◌≡◌};
ghost use Rattle.line.specs.Allotments.{Allotment, allots?};

/// The supply, and what the other channels draw of it: asked only where a setpoint asks.
pub trait Allotting {
    ghost allotment: { Self → Allotment };

    /// Whether a share, in the place of the channel's old one, fits beside the others'.
    fn fits(&self, share: u64) -> bool
        ensures { result ≡ allots? (allotment self.now) share };
}

/// The supply in mL/min, and the sum of the other channels' shares.
#[derive(Clone, Copy)]
pub struct Given {
    pub supply: u32,
    pub others: u64,
}

impl Allotting for Given {
    ghost allotment = { λ given. record { supply = given.supply; others = given.others } };

    fn fits(&self, share: u64) -> bool {
        let supply = self.supply;
        match self.others.checked_add(share) {
            Some(total) => header::fits(supply, total),
            None => false,
        }
    }
}
