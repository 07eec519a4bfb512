// The call inspect: one unit more of a lot, of this class. Document 01, "Sheet" and "Refused";
// document 02, change 7.
ghost use Rattle.std.specs.Prelude.{◌≡◌};
ghost use Rattle.sheetmodel.specs.Calls.{inspect};

use crate::locating::locate_lot_and_count;
use crate::offices::Holdings;
use crate::progress::answer_to;
use crate::writing::add_inspection;
use plan::Refusal;

pub fn inspect(sheet: &mut [u32], lot: u32, class: u32) -> Result<(), Refusal>
    ensures value { result ≡ (inspect lot class sheet.old).reply }
    ensures sheet_after { sheet.new ≡ (inspect lot class sheet.old).words }
{
    let mut held = [0u32; 16];
    let found = locate_lot_and_count(sheet, lot, &mut held)?;
    if plan::HIGHEST_CLASS < class {
        return Err(Refusal::Class);
    }
    if !answer_to(sheet, found.chain.counts).goes_on() {
        return Err(Refusal::Decided);
    }
    let holdings = Holdings { sheet, held: &held };
    holdings.grant_record(lot)?;
    add_inspection(sheet, found.at, found.chain.counts.units(), class);
    Ok(())
}
