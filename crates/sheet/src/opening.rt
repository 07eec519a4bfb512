// The call open: a new lot of this number. Document 01, "Sheet" and "Refused"; document 02, change 7.
ghost use Rattle.std.specs.Prelude.{◌≡◌};
ghost use Rattle.sheetmodel.specs.Calls.{open_lot};

use crate::locating::locate_and_count;
use crate::offices::Holdings;
use crate::writing::add_lot;
use plan::Refusal;

pub fn open(sheet: &mut [u32], lot: u32) -> Result<(), Refusal>
    ensures value { result ≡ (open_lot lot sheet.old).reply }
    ensures sheet_after { sheet.new ≡ (open_lot lot sheet.old).words }
{
    let mut held = [0u32; 16];
    let found = locate_and_count(sheet, lot, &mut held)?;
    if lot == 0 {
        return Err(Refusal::LotZero);
    }
    if found.at != 0 {
        return Err(Refusal::LotOpen);
    }
    let holdings = Holdings { sheet, held: &held };
    holdings.grant_record(lot)?;
    add_lot(sheet, lot, found.before);
    Ok(())
}
