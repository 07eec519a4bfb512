// The call fresh: writes the header for a plan and the offices' shares, and nothing else. Document 01, "Sheet"
// and "Refused"; document 02, change 7.
ghost use Rattle.std.specs.Prelude.{◌≡◌, ◌≤◌, true, length};
ghost use Rattle.plan.specs.Plan.{admitted};
ghost use Rattle.sheetmodel.specs.Layout.{least_size};
ghost use Rattle.sheetmodel.specs.Calls.{fresh, fresh_words};

use crate::fives::put_fives;
use crate::layout::{
    FIRST_FREE, FIRST_LOT, FIRST_RECORD, LEAST_SIZE, NEXT_UNUSED, OFFICES, PLAN_START,
    SHARES_START, STAGE_COUNT,
};
use crate::size::{Sheet, size_ok};
use plan::Refusal;

// The unused stages and the totals stay 0.
fn put_header(sheet: &mut [u32], plan: &[u32], shares: &[u32; 16])
    requires { (least_size ≤ length sheet.old) × (admitted plan.now ≡ true) }
    ensures { sheet.new ≡ fresh_words plan.now shares.now sheet.old }
{
    sheet[NEXT_UNUSED] = FIRST_RECORD;
    sheet[FIRST_LOT] = 0;
    sheet[FIRST_FREE] = 0;
    sheet[STAGE_COUNT] = (plan.len() / 5) as u32;
    sheet[PLAN_START..SHARES_START].fill(0);
    put_fives(sheet, plan);
    sheet[SHARES_START..SHARES_START + OFFICES].copy_from_slice(shares);
}

#[tactic(auto, using(crate::proofs::FreshOutcome::wrong_size, crate::proofs::FreshOutcome::not_admitted, crate::proofs::FreshOutcome::too_many_shares, crate::proofs::FreshOutcome::granted))]
pub fn fresh(sheet: &mut [u32], plan: &[u32], shares: &[u32; 16]) -> Result<(), Refusal>
    ensures value { result ≡ (fresh plan.now shares.now sheet.old).reply }
    ensures sheet_after { sheet.new ≡ (fresh plan.now shares.now sheet.old).words }
{
    if !size_ok(sheet, LEAST_SIZE) {
        return Err(Refusal::Size);
    }
    if !plan::admitted(plan) {
        return Err(Refusal::Plan);
    }
    if !(Sheet { words: sheet }).given_shares_fit(shares) {
        return Err(Refusal::Shares);
    }
    put_header(sheet, plan, shares);
    Ok(())
}
