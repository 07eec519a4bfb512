// Chains of records: a lot's inspections, and the free records. Each record is tested before its words
// are used, so that a damaged chain ends the walk. A tested record is given by `if`, and not by `then_some`,
// which takes its value before the test.
ghost use Rattle.std.specs.Prelude.{◌≡◌, ◌+◌, ◌-◌, ◌≤◌, ◌<◌, cond, eqb};
ghost use Rattle.plan.specs.Plan.{stages, end_below};
ghost use Rattle.plan.specs.Counts.{units};
ghost use Rattle.sheetmodel.specs.Layout.{first_free, word};
ghost use Rattle.sheetmodel.specs.Read.{serial_at, depth, read_inspections, read_free, undecided_before};
ghost use Rattle.sheetmodel.specs.Rows.{is_some};
ghost use Rattle.sheet.specs.Survey.{record_if, is_inspection, is_free, no_chain, with_chain, if_undecided, with_newer, tested, chain_of, newer_part, free_of};

use crate::layout::{FIRST_FREE, FREE_TAG};
use crate::record::{Record, TAG, VALUE, field_of, record_at};
use crate::records::Records;
use plan::Counts;

// The units of inspections on a chain, and the blanks among them.
#[derive(Clone, Copy)]
pub struct Chain {
    pub counts: Counts,
    pub blanks: u32,
}

// The newer inspections of a chain, and the record after them.
#[derive(Clone, Copy)]
struct Part {
    chain: Chain,
    next: usize,
}

impl Chain {
    // No inspections.
    pub fn none() -> Chain
        ensures { result ≡ no_chain }
    {
        Chain {
            counts: Counts::none(),
            blanks: 0,
        }
    }

    // These older inspections and newer ones; no Add, since a chain has an older and a newer end.
    fn with(self, newer: Chain) -> Chain
        requires { (units self.counts + units newer.counts ≤ 1000) × (self.blanks + newer.blanks ≤ 1000) }
        ensures { result ≡ with_chain self newer }
    {
        Chain {
            counts: self.counts + newer.counts,
            blanks: self.blanks + newer.blanks,
        }
    }
}

impl Part {
    // The whole chain, if no older inspection is left.
    fn ended(self) -> Option<Chain>
        ensures { result ≡ cond (eqb self.next 0) (Some self.chain) None }
    {
        (self.next == 0).then_some(self.chain)
    }
}

impl Records<'_> {
    // Apart from `free` and `lot`: each tests other words of its record, and a closure for it would be no plainer.
    // The record `at`, if it is the inspection of the lot with this serial.
    fn inspection(self, lot: u32, serial: u32, at: usize) -> Option<Record>
        ensures { result ≡ record_if (is_inspection self.entry.first self.entry.sheet.now lot serial at) self.entry.sheet.now at }
    {
        if !self.is_used(at) {
            return None;
        }
        let r = record_at(self.sheet, at);
        if r.value <= plan::HIGHEST_CLASS && r.link == lot && r.tag == serial {
            Some(r)
        } else {
            None
        }
    }

    // The inspections of a lot from the record `at` on, whose serials fall from `serial` to `stop` + 1. The
    // `stop` older ones are then left to be tested. A struct of lot, serial and record would be no plainer: each
    // step of the walk changes two of the three.
    // Classes come in no order, so that a branch on them is often predicted wrongly. Three sums need none:
    // of the classes, of their halves (1 for a bad or blank unit) and of their thirds (1 for a blank).
    fn newer_part(self, lot: u32, serial: u32, at: usize, stop: u32) -> Option<Part>
        requires { (serial ≤ 1000) × (stop < serial) }
        ensures { result ≡ newer_part self.entry.first self.entry.sheet.now lot stop (serial - stop) at no_chain }
    {
        let mut next = at;
        let mut sum: u32 = 0;
        let mut halves: u32 = 0;
        let mut blanks: u32 = 0;
        for older in (stop..serial).rev() {
            let r = self.inspection(lot, older + 1, next)?;
            sum += r.value;
            halves += r.value / 2;
            blanks += r.value / 3;
            next = r.next as usize;
        }
        let marginal = sum - 2 * halves;
        let bad = halves - blanks;
        let good = serial - stop - marginal - bad;
        let counts = Counts {
            good,
            marginal,
            bad,
        };
        Some(Part {
            chain: Chain { counts, blanks },
            next,
        })
    }

    // One chain of older inspections, which must be undecided, and newer ones.
    #[tactic(auto, using(plan::proofs::Promise::shape))]
    fn joined(self, older: Chain, newer: Chain) -> Option<Chain>
        requires { (units older.counts + units newer.counts ≤ 1000) × (older.blanks + newer.blanks ≤ 1000) }
        ensures { result ≡ with_newer newer (if_undecided (stages self.entry.plan.now) (Some older)) }
    {
        if plan::earliest(self.plan, older.counts).goes_on() {
            Some(older.with(newer))
        } else {
            None
        }
    }

    // The inspections of a lot from the record `at` on, whose serials fall from `serial` to 1. The units of
    // the `test` oldest ones must be undecided, and those at each stage end below. They are counted before
    // they are tested, so the older ones come first: a call for each number tested, at most eight deep.
    fn inspections(self, lot: u32, serial: u32, at: usize, test: u32) -> Option<Chain>
        requires { (serial ≤ 1000) × (test < serial) }
        ensures { result ≡ chain_of (tested (stages self.entry.plan.now) test) (read_inspections self.entry.first self.entry.sheet.now lot serial at) }
    {
        let newer = self.newer_part(lot, serial, at, test)?;
        // before the first unit every lot is undecided
        if test == 0 {
            return newer.ended();
        }
        let below = plan::end_below(self.plan, 0, test);
        let older = self.inspections(lot, test, newer.next, below)?;
        self.joined(older, newer.chain)
    }

    // As `inspections`, where nothing is tested. This and the next stand apart from it because they do not call
    // themselves, and so are compiled into the walk over the lots; most lots come here. Tried, slower than
    // before: `inspections` for all lots, looks took 20 to 30 of 100 longer.
    fn whole_chain(self, lot: u32, serial: u32, at: usize) -> Option<Chain>
        requires { (serial ≤ 1000) × (0 < serial) }
        ensures { result ≡ chain_of (tested (stages self.entry.plan.now) 0) (read_inspections self.entry.first self.entry.sheet.now lot serial at) }
    {
        self.newer_part(lot, serial, at, 0)?.ended()
    }

    // As `inspections`, where no stage ends below `test`.
    fn in_first_stage(self, lot: u32, serial: u32, at: usize, test: u32) -> Option<Chain>
        requires { (serial ≤ 1000) × (0 < test) × (test < serial) × (0 ≡ end_below 0 (stages self.plan.now) test) }
        ensures { result ≡ chain_of (tested (stages self.entry.plan.now) test) (read_inspections self.entry.first self.entry.sheet.now lot serial at) }
    {
        let newer = self.newer_part(lot, serial, at, test)?;
        let older = self.whole_chain(lot, test, newer.next)?;
        self.joined(older, newer.chain)
    }

    // The inspections of the lot in the record `lot`, the newest in the record `newest` (0: none).
    pub fn lot_inspections(self, lot: u32, newest: u32) -> Option<Chain>
        ensures { result ≡ chain_of (undecided_before (stages self.entry.plan.now)) (read_inspections self.entry.first self.entry.sheet.now lot (serial_at self.entry.sheet.now newest) newest) }
    {
        if newest == 0 {
            return Some(Chain::none());
        }
        if !self.is_used(newest as usize) {
            return None;
        }
        let serial = field_of(self.sheet, newest, TAG);
        if serial == 0 || self.most < serial {
            return None;
        }
        if serial == 1 {
            return self.whole_chain(lot, serial, newest as usize);
        }
        if plan::end_below(self.plan, 0, serial - 1) == 0 {
            return self.in_first_stage(lot, serial, newest as usize, serial - 1);
        }
        self.inspections(lot, serial, newest as usize, serial - 1)
    }

    // The record `at`, if it is the free record of this depth.
    fn free(self, depth: u32, at: usize) -> Option<Record>
        ensures { result ≡ record_if (is_free self.entry.first self.entry.sheet.now depth at) self.entry.sheet.now at }
    {
        if !self.is_used(at) {
            return None;
        }
        let r = record_at(self.sheet, at);
        if r.value == depth && r.link == 0 && r.tag == FREE_TAG {
            Some(r)
        } else {
            None
        }
    }

    // Is the chain of free records from `at` on whole, of this depth?
    #[tactic(auto, using(crate::proofs::Used::passed, crate::proofs::Used::failed, crate::proofs::FreeSteps::ended, crate::proofs::FreeSteps::not_free, crate::proofs::FreeSteps::next_free))]
    fn is_free_chain(self, depth: u32, at: usize) -> bool
        ensures { result ≡ is_some (read_free self.entry.first self.entry.sheet.now depth at) }
    {
        let mut next = at;
        for older in (0..depth).rev() {
            match self.free(older + 1, next) {
                None => return false,
                Some(r) => next = r.next as usize,
            }
        }
        next == 0
    }

    // The number of free records, if their chain is whole.
    #[tactic(auto, using(crate::proofs::FreeSteps::no_free, crate::proofs::FreeSteps::depth_is, crate::proofs::FreeSteps::cut, crate::proofs::FreeSteps::whole_of, crate::proofs::FreeSteps::not_used))]
    pub fn free_chain(self) -> Option<u32>
        ensures { result ≡ free_of (read_free self.entry.first self.entry.sheet.now (depth self.entry.sheet.now) (word self.entry.sheet.now first_free)) }
    {
        let at = self.sheet[FIRST_FREE];
        if at == 0 {
            return Some(0);
        }
        if !self.is_used(at as usize) {
            return None;
        }
        let depth = field_of(self.sheet, at, VALUE);
        if self.is_free_chain(depth, at as usize) {
            Some(depth)
        } else {
            None
        }
    }
}
