// What granted calls give. specs/Reply.antt has document 01's numbers for each.
// The numbers stand one by one in document 01's order, as C and the programs give them: so no `Counts` within.
use plan::Answer;
use std::fmt;

// What a lot shows. The blanks are among the marginal units.
#[derive(Clone, Copy, Debug, PartialEq, Eq)]
pub struct Shown {
    pub answer: Answer,
    pub units: u32,
    pub good: u32,
    pub marginal: u32,
    pub bad: u32,
    pub blanks: u32,
}

// The totals over the closed lots.
#[derive(Clone, Copy, Debug, PartialEq, Eq)]
pub struct Totals {
    pub accepted: u32,
    pub rejected: u32,
    pub good: u32,
    pub marginal: u32,
    pub bad: u32,
}

// Of each class, the units that count, and how many these are; at least one.
#[derive(Clone, Copy, Debug, PartialEq, Eq)]
pub struct Estimate {
    pub good: u64,
    pub marginal: u64,
    pub bad: u64,
    pub over: u64,
}

impl fmt::Display for Estimate {
    ghost use Rattle.std.specs.Prelude.{Some};
    ghost use Rattle.sheetmodel.specs.Printed.{estimate_printed};

    ghost output = { λ e. Some (estimate_printed e) };

    fn fmt<W: fmt::Write>(&self, f: &mut fmt::Formatter<W>) -> fmt::Result {
        write!(
            f,
            "{} {} {} {}",
            self.good, self.marginal, self.bad, self.over
        )
    }
}
