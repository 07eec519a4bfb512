// A new record: whether it is granted, and which it is: the first free, else the next never used. Document
// 01, "Sheet"; document 02, change 7.
ghost use Rattle.std.specs.Prelude.{◌≡◌, ◌≤◌, length};
ghost use Rattle.sheetmodel.specs.Rows.{record_rows};
ghost use Rattle.sheetmodel.specs.Calls.{full, held_back, new_record, take_record};
ghost use Rattle.sheet.specs.Granting.{grant_by};
ghost use Rattle.sheet.specs.Writes.{Room};
ghost use Rattle.sheetmodel.specs.Layout.{least_size};

use crate::layout::{FIRST_FREE, NEXT_UNUSED};
use crate::offices::Holdings;
use crate::record::{NEXT, field_of, record_count};
use plan::Refusal;

// Is no record free or unused?
#[tactic(auto, unfolding(sheetmodel::specs::Calls::full))]
fn is_full(sheet: &[u32]) -> bool
    requires { least_size ≤ length sheet.now }
    ensures { result ≡ full sheet.now }
{
    sheet[FIRST_FREE] == 0 && record_count(sheet) <= sheet[NEXT_UNUSED] as usize
}

impl Holdings<'_> {
    // The rows about a record that is needed for a lot.
    pub fn grant_record(self, lot: u32) -> Result<(), Refusal>
        ensures { result ≡ grant_by (record_rows (full self.entry.sheet.now) (held_back lot self.entry.sheet.now)) }
    {
        if is_full(self.sheet) {
            return Err(Refusal::Full);
        }
        if !self.may_take(lot) {
            return Err(Refusal::HeldBack);
        }
        Ok(())
    }
}

#[tactic(auto, unfolding(sheetmodel::specs::Calls::new_record))]
pub fn new_record(sheet: &[u32]) -> u32
    requires { least_size ≤ length sheet.now }
    ensures { result ≡ new_record sheet.now }
{
    let free = sheet[FIRST_FREE];
    if free != 0 {
        return free;
    }
    sheet[NEXT_UNUSED]
}

// Takes the new record off the free chain, or counts it as used.
#[tactic(auto, unfolding(sheetmodel::specs::Calls::take_record, sheetmodel::specs::Calls::new_record))]
pub fn take_record(sheet: &mut [u32])
    requires { Room sheet.old }
    ensures { sheet.new ≡ take_record sheet.old }
{
    let free = sheet[FIRST_FREE];
    if free != 0 {
        sheet[FIRST_FREE] = field_of(sheet, free, NEXT);
        return;
    }
    sheet[NEXT_UNUSED] += 1;
}
