// The call carry: an old sheet, whose header has no shares, into a second one. Document 02, change 8.
ghost use Rattle.std.specs.Prelude.{◌≡◌, ◌+◌, ◌≤◌, ◌++◌, true, length, drop};
ghost use Rattle.std.proofs.Math.Seq.{paste};
ghost use Rattle.sheetmodel.specs.Layout.{largest, size_from, header_size, old_least_size, old_first_record};
ghost use Rattle.sheetmodel.specs.Read.{read_from};
ghost use Rattle.sheetmodel.specs.Rows.{is_some};
ghost use Rattle.sheetmodel.specs.Carry.{raised, carried_header, carried_records, carry};
ghost use Rattle.sheet.specs.Carrying.{Carrying, raised_record};

use crate::fives::put_fives;
use crate::layout::{
    FIRST_FREE, FIRST_LOT, LEAST_SIZE, NEXT_UNUSED, OFFICES, OLD_FIRST_RECORD, OLD_LEAST_SIZE,
    PLAN_START, SHARES_START, STAGE_COUNT,
};
use crate::record::{Record, put_record, record_at, record_count};
use crate::size::{Sheet, size_ok};
use plan::Refusal;

// How much later a record stands in the second sheet.
const RISE: u32 = 4;

// A record's index in the second sheet. Zero ends a chain in both.
fn raised(index: u32) -> u32
    requires { index + 4 ≤ largest }
    ensures { result ≡ raised index }
{
    if index == 0 { 0 } else { index + RISE }
}

// A record with its indexes raised: those of a lot and of an inspection are its next and its link; of a free record
// the link is 0.
fn raised_record(r: Record) -> Record
    requires { (r.next + 4 ≤ largest) × (r.link + 4 ≤ largest) }
    ensures { result ≡ raised_record r }
{
    Record {
        next: raised(r.next),
        link: raised(r.link),
        ..r
    }
}

// Is an old sheet intact? The survey counts what offices hold, which an old sheet does not ask.
fn is_old_intact(old: &[u32]) -> bool
    requires { size_from old_least_size old.now ≡ true }
    ensures { result ≡ is_some (read_from old_first_record old.now) }
{
    let mut held = [0u32; 16];
    let found = Sheet { words: old }.survey(OLD_FIRST_RECORD, 0, &mut held);
    found.is_some()
}

// The header: its indexes raised, the stages and the totals as they are, and the shares.
#[tactic(auto, using(crate::proofs::CarryWords::header_put))]
fn put_header(sheet: &mut [u32], old: &[u32], shares: &[u32; 16])
    requires { Carrying old.now sheet.old }
    ensures { sheet.new ≡ carried_header old.now ++ (shares.now ++ drop header_size sheet.old) }
{
    sheet[NEXT_UNUSED] = old[NEXT_UNUSED] + RISE;
    sheet[FIRST_LOT] = raised(old[FIRST_LOT]);
    sheet[FIRST_FREE] = raised(old[FIRST_FREE]);
    sheet[STAGE_COUNT] = old[STAGE_COUNT];
    put_fives(sheet, &old[PLAN_START..SHARES_START]);
    sheet[SHARES_START..SHARES_START + OFFICES].copy_from_slice(shares);
}

// The records in use, free ones included.
#[tactic(auto, using(crate::proofs::CarryWords::one_raised))]
fn put_records(sheet: &mut [u32], old: &[u32])
    requires { Carrying old.now sheet.old }
    ensures { sheet.new ≡ paste sheet.old header_size (carried_records old.now) (length (carried_records old.now)) }
{
    for j in OLD_FIRST_RECORD..old[NEXT_UNUSED] {
        let r = record_at(old, j as usize);
        put_record(sheet, j + RISE, raised_record(r));
    }
}

#[tactic(auto, using(crate::proofs::CarryOutcome::wrong_old_size, crate::proofs::CarryOutcome::wrong_size, crate::proofs::CarryOutcome::old_corrupt, crate::proofs::CarryOutcome::too_many_shares, crate::proofs::CarryOutcome::no_fit, crate::proofs::CarryOutcome::granted, crate::proofs::CarryOutcome::ready, crate::proofs::CarryOutcome::still_ready))]
pub fn carry(old: &[u32], sheet: &mut [u32], shares: &[u32; 16]) -> Result<(), Refusal>
    ensures value { result ≡ (carry old.now shares.now sheet.old).reply }
    ensures sheet_after { sheet.new ≡ (carry old.now shares.now sheet.old).words }
{
    if !size_ok(old, OLD_LEAST_SIZE) || !size_ok(sheet, LEAST_SIZE) {
        return Err(Refusal::Size);
    }
    if !is_old_intact(old) {
        return Err(Refusal::Corrupt);
    }
    if !(Sheet { words: sheet }).given_shares_fit(shares) {
        return Err(Refusal::Shares);
    }
    if record_count(sheet) < old[NEXT_UNUSED] as usize + RISE as usize {
        return Err(Refusal::NoFit);
    }
    put_header(sheet, old, shares);
    put_records(sheet, old);
    Ok(())
}
