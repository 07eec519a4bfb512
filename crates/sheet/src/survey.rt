// One walk over a sheet: is it intact, where is the lot of a number, and what does each office hold?
ghost use Rattle.std.specs.Prelude.{◌≡◌, ◌+◌, ◌≤◌, replicate, eqb};
ghost use Rattle.std.proofs.Math.Option.{some};
ghost use Rattle.plan.specs.Plan.{stages};
ghost use Rattle.plan.specs.Counts.{units};
ghost use Rattle.sheetmodel.specs.Layout.{next_unused, first_lot, word, records, offices};
ghost use Rattle.sheetmodel.specs.Read.{then, read_from, read_lots};
ghost use Rattle.sheet.specs.Survey.{record_if, is_lot, with_lot_found, nothing_found, lots_survey, survey_of};
ghost use Rattle.sheet.specs.Sharing.{Counted};

use crate::chain::Chain;
use crate::header::Header;
use crate::layout::{FIRST_LOT, NEXT_UNUSED};
use crate::offices::count_lot;
use crate::record::{Record, record_at, record_count};
use crate::records::Records;
use crate::size::Sheet;

// What is found for a lot's number: its record and its chain, 0 and no units where it is not on the
// sheet; the record before it, whose next lot it is or would be; and the records that all lots and
// their inspections use.
// 0 is no record in a sheet's words (document 01), and `before` is 0 for the header: so `at` is no Option.
#[derive(Clone, Copy)]
pub struct Found {
    pub used: u32,
    pub before: u32,
    pub at: u32,
    pub chain: Chain,
}

impl Found {
    // With the lot in the record `at`, of this number and chain, more.
    fn with_lot(self, sought: u32, at: u32, number: u32, chain: Chain) -> Found
        requires { (units chain.counts ≤ 1000) × (self.used + (1 + units chain.counts) ≤ 4294967295) }
        ensures { result ≡ with_lot_found sought self at number chain }
    {
        let used = self.used + (1 + chain.counts.units());
        if number < sought {
            return Found {
                used,
                before: at,
                ..self
            };
        }
        if number == sought {
            return Found {
                used,
                at,
                chain,
                ..self
            };
        }
        Found { used, ..self }
    }
}

impl Records<'_> {
    // The record `at`, if it is a lot's, with a number above the last one.
    fn lot(self, above: u32, at: usize) -> Option<Record>
        ensures { result ≡ record_if (is_lot self.entry.first self.entry.sheet.now above at) self.entry.sheet.now at }
    {
        if !self.is_used(at) {
            return None;
        }
        let r = record_at(self.sheet, at);
        if above < r.value && r.tag == 0 {
            Some(r)
        } else {
            None
        }
    }

    // All lots are walked, and none is searched for: a call tests the whole sheet (document 01, refusal 3).
    // The lots and their inspections. `held` takes what each office holds of them.
    fn lots(self, sought: u32, held: &mut [u32; 16]) -> Option<Found>
        requires { held.old ≡ replicate offices 0 }
        ensures value { result ≡ lots_survey (stages self.entry.plan.now) sought nothing_found (read_lots self.entry.first self.entry.sheet.now (records self.entry.sheet.now) 0 (word self.entry.sheet.now first_lot)) }
        ensures counted { Counted result (read_lots self.entry.first self.entry.sheet.now (records self.entry.sheet.now) 0 (word self.entry.sheet.now first_lot)) held.new }
    {
        let mut found = Found {
            used: 0,
            before: 0,
            at: 0,
            chain: Chain::none(),
        };
        let mut above: u32 = 0;
        let mut at = self.sheet[FIRST_LOT];
        for _ in 0..record_count(self.sheet) {
            if at == 0 {
                return Some(found);
            }
            let r = self.lot(above, at as usize)?;
            let chain = self.lot_inspections(at, r.link)?;
            found = found.with_lot(sought, at, r.value, chain);
            count_lot(held, r.value, chain.counts.units());
            above = r.value;
            at = r.next;
        }
        if at == 0 {
            return Some(found);
        }
        None
    }

    // Are the records on chains as many as are in use?
    fn count_ok(self, used: u32, free: u32) -> bool
        ensures { result ≡ eqb (self.entry.first + (used + free)) (word self.entry.sheet.now next_unused) }
    {
        u64::from(self.first) + (u64::from(used) + u64::from(free))
            == u64::from(self.sheet[NEXT_UNUSED])
    }
}

impl Sheet<'_> {
    // The survey for the lot number that is sought. `first` is the first record after the header. Compiled into its two
    // callers: as a function of its own, looks on short lots took 3 of 100 longer.
    #[inline(always)]
    pub fn survey(self, first: u32, sought: u32, held: &mut [u32; 16]) -> Option<Found>
        requires { held.old ≡ replicate offices 0 }
        ensures value { result ≡ survey_of sought (read_from first self.entry.words.now) }
        ensures counted { Counted result (then (read_from first self.entry.words.now) (λ s. some s.lots)) held.new }
    {
        if !self.header_ok(first) {
            return None;
        }
        let sheet = self.words;
        let plan = Header { words: sheet }.plan();
        let most = plan::sample_size(plan);
        let records = Records {
            sheet,
            first,
            plan,
            most,
        };
        let found = records.lots(sought, held)?;
        let free = records.free_chain()?;
        if records.count_ok(found.used, free) {
            Some(found)
        } else {
            None
        }
    }
}
