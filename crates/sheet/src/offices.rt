// Offices and their shares of the records: which shares a sheet may have, what an office holds, and whether a
// record may be taken. Document 02, change 7.
ghost use Rattle.std.specs.Prelude.{◌≡◌, ◌+◌, ◌-◌, ◌≤◌, length, leb};
ghost use Rattle.sheetmodel.specs.Layout.{least_size, largest, word, records, first_record, offices, share};
ghost use Rattle.sheetmodel.specs.Offices.{office, added_up, shares_fit, spare, may_take};
ghost use Rattle.sheetmodel.specs.Calls.{contents};
ghost use Rattle.sheet.specs.Sharing.{WholeSheet, HeldBy, with_lot_held};

use crate::freeing::depth_of;
use crate::layout::{FIRST_RECORD, NEXT_UNUSED, OFFICES, SHARES_START};
use crate::record::record_count;
use crate::size::Sheet;
use crate::sums::sum_of;

impl Sheet<'_> {
    // Are there as many records after the header?
    fn has_records(self, n: u64) -> bool
        requires { least_size ≤ length self.words.now }
        ensures { result ≡ leb n (records self.entry.words.now - first_record) }
    {
        n <= record_count(self.words) as u64 - u64::from(FIRST_RECORD)
    }

    // Do the shares in the header add to no more than the records after it?
    pub fn shares_fit(self) -> bool
        requires { least_size ≤ length self.words.now }
        ensures { result ≡ shares_fit (share self.entry.words.now) self.entry.words.now }
    {
        self.has_records(sum_of(&self.words[SHARES_START..SHARES_START + OFFICES]))
    }

    // Would these?
    #[tactic(auto, unfolding(sheetmodel::specs::Offices::shares_fit))]
    pub fn given_shares_fit(self, shares: &[u32; 16]) -> bool
        requires { least_size ≤ length self.words.now }
        ensures { result ≡ shares_fit (word shares.now) self.entry.words.now }
    {
        self.has_records(sum_of(shares))
    }
}

fn office_of(lot: u32) -> usize
    ensures { result ≡ office lot }
{
    lot as usize % OFFICES
}

// Counts a lot and its inspections for its office.
pub fn count_lot(held: &mut [u32; 16], lot: u32, inspections: u32)
    requires { (length held.old ≡ offices) × (word held.old (office lot) + (1 + inspections) ≤ largest) }
    ensures { held.new ≡ with_lot_held held.old lot inspections }
{
    let o = office_of(lot);
    held[o] += 1 + inspections;
}

// A sheet that is not corrupt, and what each office holds of it.
#[derive(Clone, Copy)]
pub struct Holdings<'a> {
    pub sheet: &'a [u32],
    pub held: &'a [u32; 16],
    pub ghost whole: { WholeSheet sheet.now },
    pub ghost counted: { HeldBy (contents sheet.now).lots held.now },
}

impl Holdings<'_> {
    // What the offices lack to reach their shares, added up.
    #[tactic(auto, using(crate::proofs::WordSums::one_more, crate::proofs::WordSums::no_words))]
    fn all_lacking(self) -> u64
        ensures { result ≡ added_up offices (λ o. share self.entry.sheet.now o - word self.entry.held.now o) }
    {
        let mut sum: u64 = 0;
        // By index, since the shares are words of the header and `held` an array: office o has one place in both.
        for o in 0..OFFICES {
            sum += u64::from(self.sheet[SHARES_START + o].saturating_sub(self.held[o]));
        }
        sum
    }

    // The records free and unused.
    #[tactic(auto, using(crate::proofs::OfficeSteps::sized_its, crate::proofs::OfficeSteps::can_free, crate::proofs::OfficeSteps::depth_is))]
    fn spare(self) -> u64
        ensures { result ≡ spare self.entry.sheet.now (contents self.entry.sheet.now) }
    {
        let unused = record_count(self.sheet) as u64 - u64::from(self.sheet[NEXT_UNUSED]);
        u64::from(depth_of(self.sheet)) + unused
    }

    // May the office of a lot take a record? An office that has its share lacks nothing, so that all lack what
    // the others lack.
    #[tactic(auto, using(crate::proofs::OfficeSteps::below_share, crate::proofs::OfficeSteps::by_spare))]
    pub fn may_take(self, lot: u32) -> bool
        ensures { result ≡ may_take self.entry.sheet.now (contents self.entry.sheet.now) (office lot) }
    {
        let left = self.spare();
        let o = office_of(lot);
        if self.held[o] < self.sheet[SHARES_START + o] {
            return true;
        }
        self.all_lacking() < left
    }
}
