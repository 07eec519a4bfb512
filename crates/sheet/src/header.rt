// The header of a sheet: is it that of an intact one? Document 01, "Sheet". The words before the shares are
// those of both layouts.
ghost use Rattle.std.specs.Prelude.{◌≡◌, ◌+◌, ◌*◌, ◌≤◌, length};
ghost use Rattle.sheetmodel.specs.Layout.{greatest_size, shares_start, word, stage_count, plan_start, plan_words, unused_stages};
ghost use Rattle.sheetmodel.specs.Read.{all_zero, header_ok};
ghost use Rattle.sheet.specs.Survey.{totals_ok};

use crate::layout::{
    ACCEPTED_LOTS, BAD_UNITS, GOOD_UNITS, MARGINAL_UNITS, MOST_CLOSED, NEXT_UNUSED, PLAN_START,
    REJECTED_LOTS, STAGE_COUNT,
};
use crate::record::record_count;
use crate::size::Sheet;
use crate::sums::sum_of;

// A header with no more stages than it has room for.
#[derive(Clone, Copy)]
pub struct Header<'a> {
    pub words: &'a [u32],
    pub ghost long: { shares_start ≤ length words.now },
    pub ghost few: { word words.now stage_count ≤ 7 },
}

impl<'a> Header<'a> {
    // Where the plan's words end.
    fn plan_end(self) -> usize
        ensures { result ≡ plan_start + 5 * word self.entry.words.now stage_count }
    {
        PLAN_START + 5 * self.words[STAGE_COUNT] as usize
    }

    // The plan in the header.
    pub fn plan(self) -> &'a [u32]
        ensures { result.now ≡ plan_words self.entry.words.now }
    {
        let end = self.plan_end();
        &self.words[PLAN_START..end]
    }

    // The words of the stages that the plan does not use.
    #[tactic(auto, using(crate::proofs::HeaderSteps::unused_part))]
    fn unused_stages(self) -> &'a [u32]
        ensures { result.now ≡ unused_stages self.entry.words.now }
    {
        let end = self.plan_end();
        &self.words[end..ACCEPTED_LOTS]
    }
}

// By their sum: a test of each word would leave the loop at the first that is not 0, and so take them one by
// one.
#[tactic(auto, using(crate::proofs::WordSums::zero_sum))]
fn is_zero(words: &[u32]) -> bool
    requires { length words.now ≤ greatest_size }
    ensures { result ≡ all_zero words.now }
{
    sum_of(words) == 0
}

impl Sheet<'_> {
    // Are the totals within their bounds?
    fn totals_ok(self) -> bool
        ensures { result ≡ totals_ok self.entry.words.now }
    {
        let lots = u64::from(self.words[ACCEPTED_LOTS]) + u64::from(self.words[REJECTED_LOTS]);
        let units = u64::from(self.words[GOOD_UNITS])
            + u64::from(self.words[MARGINAL_UNITS])
            + u64::from(self.words[BAD_UNITS]);
        lots <= MOST_CLOSED && units <= 1000 * lots
    }

    // `first` is the first record after the header. Kept out of the walk over the lots, which is then compiled
    // to fewer instructions a lot: looks were 3 to 5 of 100 faster.
    #[tactic(auto, using(crate::proofs::HeaderSteps::too_many, crate::proofs::HeaderSteps::few_unused))]
    #[inline(never)]
    pub fn header_ok(self, first: u32) -> bool
        ensures { result ≡ header_ok first self.entry.words.now }
    {
        if 7 < self.words[STAGE_COUNT] {
            return false;
        }
        let header = Header { words: self.words };
        if !plan::admitted(header.plan()) || !is_zero(header.unused_stages()) {
            return false;
        }
        let unused = self.words[NEXT_UNUSED] as usize;
        first as usize <= unused && unused <= record_count(self.words) && self.totals_ok()
    }
}
