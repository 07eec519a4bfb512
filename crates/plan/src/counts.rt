// The units of each class so far.
ghost use Rattle.std.specs.Prelude.{◌≡◌, ◌+◌, ◌≤◌};
ghost use Rattle.plan.specs.Counts.{units, no_units, add_units, both};

use std::ops::Add;

// The highest class that a unit may have.
pub const HIGHEST_CLASS: u32 = 3;

#[derive(Clone, Copy, Debug, PartialEq, Eq)]
pub struct Counts {
    pub good: u32,
    pub marginal: u32,
    pub bad: u32,
}

// That there are at most 1,000 units is a clause of those that add them up, and not of the type: `with` serves any
// number.
impl Counts {
    pub fn none() -> Counts
        ensures { result ≡ no_units }
    {
        Counts {
            good: 0,
            marginal: 0,
            bad: 0,
        }
    }

    // How many units.
    pub fn units(self) -> u32
        requires { units self ≤ 1000 }
        ensures { result ≡ units self }
    {
        self.good + self.marginal + self.bad
    }

    // n units more of one class. Every class but good (0) and bad (2) counts as marginal.
    // A class is a number, as document 01, C and a sheet's words have it: an enum would be made of it and undone.
    #[tactic(auto, using(crate::proofs::Counting::add_good, crate::proofs::Counting::add_bad, crate::proofs::Counting::add_marginal))]
    pub fn with(self, class: u32, n: u32) -> Counts
        requires { units self + n ≤ 4294967295 }
        ensures { result ≡ add_units class n self }
    {
        let mut more = self;
        match class {
            0 => more.good += n,
            2 => more.bad += n,
            _ => more.marginal += n,
        }
        more
    }
}

impl Add for Counts {
    type Output = Counts;

    ghost can_add = { λ c d. units c + units d ≤ 4294967295 };

    ghost add_gives = { λ c d r. r ≡ both c d };

    // The units of both.
    fn add(self, other: Counts) -> Counts {
        Counts {
            good: self.good + other.good,
            marginal: self.marginal + other.marginal,
            bad: self.bad + other.bad,
        }
    }
}
