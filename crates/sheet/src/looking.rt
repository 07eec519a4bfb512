// The calls that write nothing: look shows a lot, tally the totals. Document 01, "Sheet" and "Refused".
ghost use Rattle.std.specs.Prelude.{◌≡◌};
ghost use Rattle.sheetmodel.specs.Calls.{look, tally};

use crate::layout::{ACCEPTED_LOTS, BAD_UNITS, GOOD_UNITS, MARGINAL_UNITS, REJECTED_LOTS};
use crate::locating::{locate, locate_lot};
use crate::progress::answer_to;
use plan::Refusal;
use sheetmodel::{Shown, Totals};

pub fn look(sheet: &[u32], lot: u32) -> Result<Shown, Refusal>
    ensures { result ≡ (look lot sheet.now).reply }
{
    let found = locate_lot(sheet, lot)?;
    Ok(Shown {
        answer: answer_to(sheet, found.chain.counts),
        units: found.chain.counts.units(),
        good: found.chain.counts.good,
        marginal: found.chain.counts.marginal,
        bad: found.chain.counts.bad,
        blanks: found.chain.blanks,
    })
}

pub fn tally(sheet: &[u32]) -> Result<Totals, Refusal>
    ensures { result ≡ (tally sheet.now).reply }
{
    locate(sheet, 0)?;
    Ok(Totals {
        accepted: sheet[ACCEPTED_LOTS],
        rejected: sheet[REJECTED_LOTS],
        good: sheet[GOOD_UNITS],
        marginal: sheet[MARGINAL_UNITS],
        bad: sheet[BAD_UNITS],
    })
}
