// The call strike: a lot's newest inspection taken away. Document 01, "Sheet" and "Refused".
ghost use Rattle.std.specs.Prelude.{◌≡◌};
ghost use Rattle.sheetmodel.specs.Calls.{strike};

use crate::locating::locate_lot;
use crate::writing::remove_newest;
use plan::Refusal;

pub fn strike(sheet: &mut [u32], lot: u32) -> Result<(), Refusal>
    ensures value { result ≡ (strike lot sheet.old).reply }
    ensures sheet_after { sheet.new ≡ (strike lot sheet.old).words }
{
    let found = locate_lot(sheet, lot)?;
    if found.chain.counts.units() == 0 {
        return Err(Refusal::NoUnit);
    }
    remove_newest(sheet, found.at);
    Ok(())
}
