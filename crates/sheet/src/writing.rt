// What open, inspect, strike and close write. Document 01, "Sheet".
ghost use Rattle.std.specs.Prelude.{◌≡◌, ◌<◌};
ghost use Rattle.sheetmodel.specs.Layout.{largest, newest};
ghost use Rattle.sheetmodel.specs.Calls.{new_record, with_lot, with_inspection, without_newest, without_lot};
ghost use Rattle.sheet.specs.Writes.{InWords, Room, Striking, Closing, lot_at};

use crate::freeing::{free_inspections, free_record};
use crate::granting::{new_record, take_record};
use crate::record::{LINK, NEXT, Record, field_of, put_field, put_record};
use crate::totals::add_totals;
use plan::{Answer, Counts};

// A new lot after the one in record `before`; the header (0) is before all lots.
#[tactic(auto, unfolding(sheetmodel::specs::Calls::with_lot))]
pub fn add_lot(sheet: &mut [u32], number: u32, before: u32)
    requires { Room sheet.old × InWords sheet.old before }
    ensures { sheet.new ≡ with_lot sheet.old number before (new_record sheet.old) }
{
    let j = new_record(sheet);
    let next = field_of(sheet, before, NEXT);
    take_record(sheet);
    let lot = Record {
        value: number,
        next,
        link: 0,
        tag: 0,
    };
    put_record(sheet, j, lot);
    put_field(sheet, before, NEXT, j);
}

// A new inspection of the lot in record `at`, which has `count` of them.
#[tactic(auto, unfolding(sheetmodel::specs::Calls::with_inspection))]
pub fn add_inspection(sheet: &mut [u32], at: u32, count: u32, class: u32)
    requires { Room sheet.old × InWords sheet.old at × (count < largest) }
    ensures { sheet.new ≡ with_inspection sheet.old at count class (new_record sheet.old) }
{
    let j = new_record(sheet);
    let newest = field_of(sheet, at, LINK);
    take_record(sheet);
    let inspection = Record {
        value: class,
        next: newest,
        link: at,
        tag: count + 1,
    };
    put_record(sheet, j, inspection);
    put_field(sheet, at, LINK, j);
}

// Takes the newest inspection of the lot in record `at` away.
#[tactic(auto, using(crate::proofs::Unlinked::unlinked_newest), unfolding(sheetmodel::specs::Calls::without_newest))]
pub fn remove_newest(sheet: &mut [u32], at: u32)
    requires { Striking sheet.old at }
    ensures { sheet.new ≡ without_newest sheet.old at (newest sheet.old at) }
{
    let j = field_of(sheet, at, LINK);
    let older = field_of(sheet, j, NEXT);
    put_field(sheet, at, LINK, older);
    free_record(sheet, j);
}

// Adds the lot in record `at` to the totals, and frees its inspections and then it. Its chain has as
// many inspections as it has units.
#[tactic(auto, using(crate::proofs::Unlinked::unlinked_lot, crate::proofs::Unlinked::chain_kept, crate::proofs::Unlinked::still_closing, crate::proofs::Unlinked::closed_words))]
pub fn remove_lot(sheet: &mut [u32], at: u32, before: u32, answer: Answer, c: Counts)
    requires { Closing sheet.old at before answer c }
    ensures { sheet.new ≡ without_lot sheet.old before (lot_at sheet.old at) }
{
    let next = field_of(sheet, at, NEXT);
    let newest = field_of(sheet, at, LINK);
    add_totals(sheet, answer, c);
    put_field(sheet, before, NEXT, next);
    free_inspections(sheet, at, c.units(), newest);
    free_record(sheet, at);
}
