// The call close: a decided lot goes to the totals and off the sheet. Document 01, "Sheet" and "Refused".
ghost use Rattle.std.specs.Prelude.{◌≡◌};
ghost use Rattle.sheetmodel.specs.Calls.{close};

use crate::locating::locate_lot;
use crate::progress::answer_to;
use crate::totals::are_full;
use crate::writing::remove_lot;
use plan::Refusal;

pub fn close(sheet: &mut [u32], lot: u32) -> Result<(), Refusal>
    ensures value { result ≡ (close lot sheet.old).reply }
    ensures sheet_after { sheet.new ≡ (close lot sheet.old).words }
{
    let found = locate_lot(sheet, lot)?;
    let answer = answer_to(sheet, found.chain.counts);
    if answer.goes_on() {
        return Err(Refusal::Undecided);
    }
    if are_full(sheet) {
        return Err(Refusal::TotalsFull);
    }
    remove_lot(sheet, found.at, found.before, answer, found.chain.counts);
    Ok(())
}
