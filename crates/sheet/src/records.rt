// The records of a sheet, and what the walks over their chains go by.
ghost use Rattle.std.specs.Prelude.{◌≡◌, true};
ghost use Rattle.plan.specs.Plan.{stages, total, admitted};
ghost use Rattle.sheetmodel.specs.Read.{in_use};
ghost use Rattle.sheet.specs.Survey.{Sized};

use crate::layout::NEXT_UNUSED;

#[derive(Clone, Copy)]
pub struct Records<'a> {
    pub sheet: &'a [u32],
    // the first record after the header
    pub first: u32,
    pub plan: &'a [u32],
    // the plan's sample size: no lot has more units
    pub most: u32,
    pub ghost sized: { Sized sheet.now },
    pub ghost plan_admitted: { admitted plan.now ≡ true },
    pub ghost most_is: { most ≡ total (stages plan.now) },
}

impl Records<'_> {
    // May a chain have this index?
    pub fn is_used(self, at: usize) -> bool
        ensures { result ≡ in_use self.entry.first self.entry.sheet.now at }
    {
        self.first as usize <= at && at < self.sheet[NEXT_UNUSED] as usize
    }
}
