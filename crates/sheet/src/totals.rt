// The totals over the closed lots. Document 01, "Sheet".
ghost use Rattle.std.specs.Prelude.{◌≡◌, ◌+◌, ◌≤◌, ◌<◌, length};
ghost use Rattle.sheetmodel.specs.Layout.{largest, least_size, word};
ghost use Rattle.sheetmodel.specs.Calls.{tally_full, add_to, lots_total, add_totals};
ghost use Rattle.sheet.specs.Writes.{TotalsFit};

use crate::layout::{
    ACCEPTED_LOTS, BAD_UNITS, GOOD_UNITS, MARGINAL_UNITS, MOST_CLOSED, REJECTED_LOTS,
};
use plan::{Answer, Counts};

// The total that counts a lot closed with this answer, by its place in the header. An undecided lot is never closed.
fn lots_total(answer: Answer) -> usize
    ensures { result ≡ lots_total answer }
{
    match answer {
        Answer::Accept => ACCEPTED_LOTS,
        Answer::Reject | Answer::GoOn => REJECTED_LOTS,
    }
}

#[tactic(auto, unfolding(sheetmodel::specs::Calls::add_to))]
fn add_to(sheet: &mut [u32], i: usize, n: u32)
    requires { (i < length sheet.old) × (word sheet.old i + n ≤ largest) }
    ensures { sheet.new ≡ add_to sheet.old i n }
{
    sheet[i] += n;
}

// Are as many lots closed as the totals may count?
pub fn are_full(sheet: &[u32]) -> bool
    requires { least_size ≤ length sheet.now }
    ensures { result ≡ tally_full sheet.now }
{
    MOST_CLOSED <= u64::from(sheet[ACCEPTED_LOTS]) + u64::from(sheet[REJECTED_LOTS])
}

// Counts a lot closed with this answer, and its units.
pub fn add_totals(sheet: &mut [u32], answer: Answer, c: Counts)
    requires { TotalsFit sheet.old answer c }
    ensures { sheet.new ≡ add_totals sheet.old answer c }
{
    add_to(sheet, lots_total(answer), 1);
    add_to(sheet, GOOD_UNITS, c.good);
    add_to(sheet, MARGINAL_UNITS, c.marginal);
    add_to(sheet, BAD_UNITS, c.bad);
}
