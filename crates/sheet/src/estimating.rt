// The call estimate. Document 01, "Lists, events, estimates" and "Refused"; document 02, change 5.
ghost use Rattle.std.specs.Prelude.{◌≡◌, ◌≤◌};
ghost use Rattle.sheetmodel.specs.Estimate.{estimate};
ghost use Rattle.plan.specs.Counts.{units};
ghost use Rattle.sheet.specs.Estimating.{units_of_class, without_unit, evidence_counts};

use crate::layout::STAGE_COUNT;
use crate::locating::locate_lot;
use crate::progress::answer_to;
use crate::record::{LINK, VALUE, field_of};
use plan::{Counts, Refusal};
use sheetmodel::Estimate;

// One unit less of a class.
fn without_unit(class: u32, c: Counts) -> Counts
    requires { 1 ≤ units_of_class class c }
    ensures { result ≡ without_unit class c }
{
    match class {
        0 => Counts {
            good: c.good - 1,
            ..c
        },
        2 => Counts {
            bad: c.bad - 1,
            ..c
        },
        _ => Counts {
            marginal: c.marginal - 1,
            ..c
        },
    }
}

// The units that an estimate counts: the only one, else all but the last, which has this class.
fn evidence(last: u32, c: Counts) -> Counts
    requires { (units c ≤ 1000) × (1 ≤ units_of_class last c) }
    ensures { result ≡ evidence_counts last c }
{
    if c.units() == 1 {
        return c;
    }
    without_unit(last, c)
}

// A decided lot has a newest unit.
pub fn estimate(sheet: &[u32], lot: u32) -> Result<Estimate, Refusal>
    ensures { result ≡ (estimate lot sheet.now).reply }
{
    let found = locate_lot(sheet, lot)?;
    if answer_to(sheet, found.chain.counts).goes_on() {
        return Err(Refusal::Undecided);
    }
    if 1 < sheet[STAGE_COUNT] {
        return Err(Refusal::SeveralStages);
    }
    let newest = field_of(sheet, found.at, LINK);
    let c = evidence(field_of(sheet, newest, VALUE), found.chain.counts);
    Ok(Estimate {
        good: u64::from(c.good),
        marginal: u64::from(c.marginal),
        bad: u64::from(c.bad),
        over: u64::from(c.units()),
    })
}
