// What is the same for all layers, and the weights at a state.
ghost use Rattle.std.specs.Prelude.{◌≡◌, ◌+◌, ◌*◌, ◌^◌, ◌≤◌};
ghost use Rattle.chance.specs.Bounds.{Proportions};
ghost use Rattle.chance.specs.Chance.{scale};

use crate::mean::Weights;

// The chance 1, in units of 2^-40.
pub const CERTAIN: u64 = 1 << 40;

// One unit of a lot, in units of 2^-30.
const UNIT: u64 = 1 << 30;

// The value at acceptance (that at rejection is 0), and the cost of each further unit.
#[derive(Clone, Copy)]
pub struct Worth {
    pub accepted: u64,
    pub cost: u64,
    ghost fits: { accepted + cost * 1001 ≤ scale },
}

impl Worth {
    // 2^40 once the lot is accepted; a unit costs nothing.
    pub fn of_acceptance() -> Self
        ensures { (result.accepted ≡ 2 ^ 40) × (result.cost ≡ 0) }
    {
        Worth {
            accepted: CERTAIN,
            cost: 0,
        }
    }

    // A lot that is decided is worth 0, and each unit before costs 2^30.
    pub fn of_units() -> Self
        ensures { (result.accepted ≡ 0) × (result.cost ≡ 2 ^ 30) }
    {
        Worth {
            accepted: 0,
            cost: UNIT,
        }
    }
}

// The weights are the same at each unit, or fall by one with each unit of their class.
#[derive(Clone, Copy, PartialEq, Eq)]
pub enum Kind {
    Same,
    Left,
}

// The last rejection numbers, what is expected, and whether it is rounded up. That is a bool because the states of a
// lot were slower with an enum.
#[derive(Clone, Copy)]
pub struct Setting {
    pub r1: usize,
    pub r2: usize,
    pub worth: Worth,
    pub weights: Weights,
    pub kind: Kind,
    pub up: bool,
    ghost proportions: { Proportions weights },
}

impl Setting {
    ghost use Rattle.chance.specs.Layer.{at, setting_weights};

    // The weights after y units of which g are nongood and b bad.
    pub fn weights_at(self, y: usize, g: usize, b: usize) -> Weights
        requires { (b ≤ g) × (g ≤ y) }
        ensures { result ≡ setting_weights self (at y g b) }
    {
        let w = self.weights;
        match self.kind {
            Kind::Same => w,
            Kind::Left => Weights {
                good: w.good.saturating_sub((y - g) as u64),
                marginal: w.marginal.saturating_sub((g - b) as u64),
                bad: w.bad.saturating_sub(b as u64),
            },
        }
    }
}
