// Why a call is refused: the rows of document 01's table "Refused", in its order; 17 to 20 are of document 02.
ghost use Rattle.std.specs.Prelude.{◌≡◌};
ghost use Rattle.plan.specs.Refusal.{number};

use std::error::Error;
use std::fmt;

#[derive(Clone, Copy, Debug, PartialEq, Eq)]
pub enum Refusal {
    // the size of a sheet
    Size,
    // a plan that is not admitted
    Plan,
    // a sheet that is not intact
    Corrupt,
    // shares above the records of the sheet
    Shares,
    // a second sheet with too few records for those of the old one
    NoFit,
    // lot number 0
    LotZero,
    // a lot that is on the sheet already
    LotOpen,
    // no such lot
    NoLot,
    // a class above the highest
    Class,
    // an inspection of a decided lot
    Decided,
    // no unit to strike
    NoUnit,
    // an undecided lot
    Undecided,
    // no record left
    Full,
    // a record that the shares keep for other offices
    HeldBack,
    // as many lots closed as the totals may count
    TotalsFull,
    // three weights that add to 0, or to more than 1,000,000
    Weights,
    // a lot with fewer units than the sample, or more than 1,000,000
    LotSize,
    // too little scratch
    Scratch,
    // an estimate under a plan of several stages
    SeveralStages,
    // a line that is no command
    Line,
}

impl Refusal {
    // Its number in the table. A method, and no From: it has a contract by the definition, and says which number of a
    // refusal it is.
    pub fn number(self) -> u32
        ensures { result ≡ number self }
    {
        match self {
            Refusal::Size => 1,
            Refusal::Plan => 2,
            Refusal::Corrupt => 3,
            Refusal::Shares => 18,
            Refusal::NoFit => 20,
            Refusal::LotZero => 4,
            Refusal::LotOpen => 5,
            Refusal::NoLot => 6,
            Refusal::Class => 7,
            Refusal::Decided => 8,
            Refusal::NoUnit => 9,
            Refusal::Undecided => 10,
            Refusal::Full => 11,
            Refusal::HeldBack => 19,
            Refusal::TotalsFull => 12,
            Refusal::Weights => 13,
            Refusal::LotSize => 17,
            Refusal::Scratch => 14,
            Refusal::SeveralStages => 15,
            Refusal::Line => 16,
        }
    }
}

// Its number.
impl fmt::Display for Refusal {
    ghost use Rattle.std.specs.Prelude.{Some, decimal};
    ghost use Rattle.plan.specs.Refusal.{number};

    ghost output = { λ r. Some (decimal (number r)) };

    fn fmt<W: fmt::Write>(&self, f: &mut fmt::Formatter<W>) -> fmt::Result {
        write!(f, "{}", self.number())
    }
}

impl Error for Refusal {}
