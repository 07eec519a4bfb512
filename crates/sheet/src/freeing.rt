// Freeing records: a freed record goes to the front of the free chain. Document 01, "Sheet".
ghost use Rattle.std.specs.Prelude.{◌≡◌, ◌+◌, true};
ghost use Rattle.sheetmodel.specs.Read.{depth};
ghost use Rattle.sheetmodel.specs.Rows.{is_some};
ghost use Rattle.sheetmodel.specs.Calls.{free_record, free_inspections};
ghost use Rattle.sheet.specs.Writes.{InWords, Freeing, read_chain, chain};

use crate::layout::{FIRST_FREE, FREE_TAG};
use crate::record::{NEXT, Record, VALUE, field_of, put_record};

// The depth of the first free record; 0 if there is none.
#[tactic(auto, unfolding(sheetmodel::specs::Read::depth))]
pub fn depth_of(sheet: &[u32]) -> u32
    requires { Freeing sheet.now 1 }
    ensures { result ≡ depth sheet.now }
{
    let free = sheet[FIRST_FREE];
    if free == 0 {
        return 0;
    }
    field_of(sheet, free, VALUE)
}

#[tactic(auto, unfolding(sheetmodel::specs::Calls::free_record))]
pub fn free_record(sheet: &mut [u32], j: u32)
    requires { Freeing sheet.old 1 × InWords sheet.old j }
    ensures { sheet.new ≡ free_record sheet.old j }
{
    let freed = Record {
        value: depth_of(sheet) + 1,
        next: sheet[FIRST_FREE],
        link: 0,
        tag: FREE_TAG,
    };
    put_record(sheet, j, freed);
    sheet[FIRST_FREE] = j;
}

// Frees the `count` inspections of the lot in record `lot`, the newest first; one record more can
// then be freed, the lot's.
pub fn free_inspections(sheet: &mut [u32], lot: u32, count: u32, newest: u32)
    requires freeing { Freeing sheet.old (count + 1) }
    requires whole_chain { is_some (read_chain sheet.old lot count newest) ≡ true }
    ensures still_freeing { Freeing sheet.new 1 }
    ensures sheet_after { sheet.new ≡ free_inspections sheet.old (chain sheet.old lot count newest) }
{
    let mut at = newest;
    for _ in 0..count {
        let older = field_of(sheet, at, NEXT);
        free_record(sheet, at);
        at = older;
    }
}
