// What the calls answer. Document 01, "Chance of acceptance"; document 02, changes 2 and 6.

use std::fmt;

#[derive(Clone, Copy, Debug, PartialEq)]
pub struct Interval<T> {
    pub low: T,
    pub high: T,
}

// Low and high, one space between.
impl<T: fmt::Display> fmt::Display for Interval<T> {
    ghost use Rattle.std.specs.Prelude.{Some, ◌∷◌, []};
    ghost use Rattle.std.specs.Fmt.{◌++?◌};
    ghost use Rattle.plan.specs.Printed.{space};

    ghost output = { λ i. T.output i.low ++? Some (space ∷ []) ++? T.output i.high };

    fn fmt<W: fmt::Write>(&self, f: &mut fmt::Formatter<W>) -> fmt::Result {
        write!(f, "{} {}", self.low, self.high)
    }
}

// Of a chance in units of 2^-40, of the expected number of units in units of 2^-30.
pub type Bounds = Interval<u64>;

pub type Chart = Interval<f64>;
