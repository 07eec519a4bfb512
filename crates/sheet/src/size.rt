// The sizes that a sheet may have. Document 01, "Sheet".
ghost use Rattle.std.specs.Prelude.{◌≡◌, ◌≤◌, length};
ghost use Rattle.sheetmodel.specs.Layout.{greatest_size, shares_start, size_from};

use crate::layout::GREATEST_SIZE;

// `least` is that of the sheet's layout.
pub fn size_ok(sheet: &[u32], least: usize) -> bool
    ensures { result ≡ size_from least sheet.now }
{
    least <= sheet.len() && sheet.len() <= GREATEST_SIZE
}

// The words of a sheet of either layout: at least the header before the shares, at most as many as a sheet may have.
// A function that writes, or is asked between writes, or has the words from another struct, asks for the size itself:
// a `Sheet` made for one question would be no plainer.
#[derive(Clone, Copy)]
pub struct Sheet<'a> {
    pub words: &'a [u32],
    pub ghost long: { shares_start ≤ length words.now },
    pub ghost short: { length words.now ≤ greatest_size },
}
