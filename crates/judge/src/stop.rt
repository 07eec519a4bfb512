// Where the four ways stop along a list of classes. One way is searched, full, and the others follow from it.
ghost use Rattle.std.specs.Prelude.{◌≡◌};
ghost use Rattle.plan.specs.declared.ways.StageWay.TheVariants.{Uncurtailed, Full};
ghost use Rattle.plan.specs.declared.ways.Way.TheVariants.{Staged, Earliest};
ghost use Rattle.judge.specs.Judge.{no_stop, stop_of};
ghost use Rattle.judge.specs.Run.{Between, BeforeStop, semi_stop};

use crate::case::Case;
use crate::run::{count_run, half};
use plan::{Answer, Counts, StageWay, Way};
use std::fmt;

// The answer and the units at the stop; GoOn and no units where the way does not stop. No Option: 01 gives both numbers
// of such a way too, state 0 and 0 units.
#[derive(Clone, Copy, Debug, PartialEq, Eq)]
pub struct Stop {
    pub answer: Answer,
    pub counts: Counts,
}

// The units and the answer, in 01's numbers.
impl fmt::Display for Stop {
    ghost use Rattle.std.specs.Prelude.{Some};
    ghost use Rattle.judge.specs.Printed.{stop_printed};

    ghost output = { λ s. Some (stop_printed s) };

    fn fmt<W: fmt::Write>(&self, f: &mut fmt::Formatter<W>) -> fmt::Result {
        let (counts, answer) = (self.counts, self.answer);
        let units = counts.good as u64 + counts.marginal as u64 + counts.bad as u64;
        write!(f, "{units} {}", answer.number())
    }
}

fn no_stop() -> Stop
    ensures { result ≡ no_stop }
{
    Stop {
        answer: Answer::GoOn,
        counts: Counts::none(),
    }
}

// Semi rejects where full does, and else stops where uncurtailed does.
pub fn semi_stop(full: Stop, uncurtailed: Stop) -> Stop
    ensures { result ≡ semi_stop full uncurtailed }
{
    match full.answer {
        Answer::Reject => full,
        Answer::Accept | Answer::GoOn => uncurtailed,
    }
}

impl Case<'_> {
    // The units before the stop of a way that goes on after the units `from` of the list and not after `end` classes.
    // Where it goes on it has gone on all along, so it is asked in the middle. A loop, since each half that is counted
    // is added to the counts before it.
    fn before_stop(&self, way: Way, from: Counts, end: usize) -> Counts
        requires { Between way self.now.plan.now self.now.list.now from end }
        ensures { BeforeStop way self.now.plan.now self.now.list.now result }
    {
        let mut c = from;
        let mut low = from.units() as usize;
        let mut high = end;
        while 1 < high - low {
            let middle = low + half(high - low);
            let d = count_run(&self.list[low..middle], c);
            if plan::answer(self.plan, way, d).goes_on() {
                c = d;
                low = middle;
            } else {
                high = middle;
            }
        }
        c
    }

    // The units before full's stop. Full is asked at the end of each stage, and among a stage's classes where it stops
    // there. It stops by the end of the last stage, so no more are read.
    pub fn before_full_stop(&self) -> Counts
        ensures { BeforeStop (Staged Full) self.now.plan.now self.now.list.now result }
    {
        let way = Way::Staged(StageWay::Full);
        let mut c = Counts::none();
        let mut rest = self.list;
        for stage in self.plan.chunks_exact(5) {
            if rest.is_empty() {
                break;
            }
            let (part, later) = rest.split_at((stage[0] as usize).min(rest.len()));
            let after = count_run(part, c);
            if !plan::answer(self.plan, way, after).goes_on() {
                return self.before_stop(way, c, after.units() as usize);
            }
            c = after;
            rest = later;
        }
        c
    }

    // The stop of a way by the units before it.
    pub fn stop_after(&self, way: Way, before: Counts) -> Stop
        requires { BeforeStop way self.now.plan.now self.now.list.now before }
        ensures { result ≡ stop_of way self.now.plan.now self.now.list.now }
    {
        let i = before.units() as usize;
        if self.list.len() <= i {
            return no_stop();
        }
        let c = before.with(self.list[i] as u32, 1);
        Stop {
            answer: plan::answer(self.plan, way, c),
            counts: c,
        }
    }

    // Uncurtailed stops at the end of the stage in which full stops, if the list reaches it.
    pub fn uncurtailed_stop(&self, full: Stop) -> Stop
        requires { full ≡ stop_of (Staged Full) self.now.plan.now self.now.list.now }
        ensures { result ≡ stop_of (Staged Uncurtailed) self.now.plan.now self.now.list.now }
    {
        if full.answer.goes_on() {
            return no_stop();
        }
        let from = full.counts.units();
        let end = plan::end_from(self.plan, 0, from) as usize;
        if self.list.len() < end {
            return no_stop();
        }
        let c = count_run(&self.list[from as usize..end], full.counts);
        Stop {
            answer: plan::answer(self.plan, Way::Staged(StageWay::Uncurtailed), c),
            counts: c,
        }
    }

    // Earliest stops where full does, with one stage always, or accepts sooner. It does so if the units before full's
    // stop have fewer bad ones than its limit.
    pub fn earliest_stop(&self, full: Stop, before: Counts) -> Stop
        requires full_stop { full ≡ stop_of (Staged Full) self.now.plan.now self.now.list.now }
        requires before_full { BeforeStop (Staged Full) self.now.plan.now self.now.list.now before }
        ensures { result ≡ stop_of Earliest self.now.plan.now self.now.list.now }
    {
        if self.plan.len() == 5 {
            return full;
        }
        let end = before.units() as usize;
        let nongood = (before.marginal + before.bad) as usize;
        if plan::accept_limit(self.plan, 0, end, nongood) <= before.bad as usize {
            return full;
        }
        let sooner = self.before_stop(Way::Earliest, Counts::none(), end);
        self.stop_after(Way::Earliest, sooner)
    }
}
