// The first rows of the table for calls on a sheet: its size, its contents, and the lot of a number.
// `held` is the caller's array, 0 before, so that no array is copied. For the calls that need no record, `locate`
// and `locate_lot` make it.
ghost use Rattle.std.specs.Prelude.{◌≡◌, [], replicate};
ghost use Rattle.sheetmodel.specs.Layout.{offices};
ghost use Rattle.sheetmodel.specs.Rows.{lot_rows};
ghost use Rattle.sheetmodel.specs.Calls.{standing};
ghost use Rattle.sheet.specs.Locating.{located};
ghost use Rattle.sheet.specs.Sharing.{CountedOn};

use crate::layout::{FIRST_RECORD, LEAST_SIZE};
use crate::size::{Sheet, size_ok};
use crate::survey::Found;
use plan::Refusal;

// Rows 1 and 3; `held` takes what each office holds.
#[tactic(auto, using(crate::proofs::LocatedFacts::wrong_size, crate::proofs::LocatedFacts::too_many_shares, crate::proofs::LocatedFacts::by_survey, crate::proofs::LocatedFacts::counted_by_survey))]
pub fn locate_and_count(sheet: &[u32], lot: u32, held: &mut [u32; 16]) -> Result<Found, Refusal>
    requires { held.old ≡ replicate offices 0 }
    ensures value { result ≡ located lot sheet.now [] }
    ensures counted_on { CountedOn sheet.now result held.new }
{
    if !size_ok(sheet, LEAST_SIZE) {
        return Err(Refusal::Size);
    }
    let sheet = Sheet { words: sheet };
    if !sheet.shares_fit() {
        return Err(Refusal::Corrupt);
    }
    sheet
        .survey(FIRST_RECORD, lot, held)
        .ok_or(Refusal::Corrupt)
}

// Rows 1, 3 and 6; `held` takes what each office holds.
pub fn locate_lot_and_count(sheet: &[u32], lot: u32, held: &mut [u32; 16]) -> Result<Found, Refusal>
    requires { held.old ≡ replicate offices 0 }
    ensures value { result ≡ located lot sheet.now (lot_rows (standing lot sheet.now) []) }
    ensures counted_on { CountedOn sheet.now result held.new }
{
    let found = locate_and_count(sheet, lot, held)?;
    if found.at == 0 {
        return Err(Refusal::NoLot);
    }
    Ok(found)
}

// Rows 1 and 3, for calls that need no record.
pub fn locate(sheet: &[u32], lot: u32) -> Result<Found, Refusal>
    ensures { result ≡ located lot sheet.now [] }
{
    let mut held = [0u32; 16];
    locate_and_count(sheet, lot, &mut held)
}

// Rows 1, 3 and 6, for calls that need no record.
pub fn locate_lot(sheet: &[u32], lot: u32) -> Result<Found, Refusal>
    ensures { result ≡ located lot sheet.now (lot_rows (standing lot sheet.now) []) }
{
    let mut held = [0u32; 16];
    locate_lot_and_count(sheet, lot, &mut held)
}
