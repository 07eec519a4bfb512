// The earliest stop: the verdict is settled once the worst case (every further unit bad) is accepted, or
// the best case (every further unit good) is rejected. Document 01, "Four ways to stop".
ghost use Rattle.std.specs.Prelude.{◌≡◌, ◌+◌, ◌≤◌};
ghost use Rattle.plan.specs.Counts.{units};
ghost use Rattle.plan.specs.Plan.{stages, total};
ghost use Rattle.plan.specs.Stopping.{at_filled, completed, earliest};

use crate::counts::Counts;
use crate::stage::{Answer, StageEnd, split_first};

impl StageEnd {
    // The answer there, where every unit after c is of one class. A stage that has ended before c went on.
    #[tactic(auto, using(crate::proofs::Counting::added), unfolding(crate::specs::Stopping::at_filled))]
    fn at_filled(self, class: u32, c: Counts) -> Answer
        requires { units c ≤ 1000 }
        ensures { result ≡ at_filled class c self.end self.stage }
    {
        let y = c.units();
        if self.end < y {
            return Answer::GoOn;
        }
        self.stage.at_end(c.with(class, self.end - y))
    }
}

// The uncurtailed verdict where every unit after c is of one class. The stages left are those of `plan`; they
// come after `before` units. By recursion on the stages left, as document 01 asks.
#[tactic(auto, using(crate::proofs::Stages::total_more, crate::proofs::Answers::going_on), unfolding(crate::specs::Plan::total, crate::specs::Stopping::completed, crate::specs::Stopping::first_answer, crate::specs::Stopping::or_else))]
fn completed(plan: &[u32], class: u32, before: u32, c: Counts) -> Answer
    requires { (before + total (stages plan.now) ≤ 1000) × (units c ≤ 1000) }
    ensures { result ≡ completed class before (stages plan.now) c }
{
    let Some((stage, rest)) = split_first(plan) else {
        return Answer::GoOn;
    };
    let end = before + stage.size;
    let verdict = StageEnd { stage, end }.at_filled(class, c);
    if verdict.goes_on() {
        return completed(rest, class, end, c);
    }
    verdict
}

// The earliest stop's answer to the units c.
#[tactic(auto, unfolding(crate::specs::Stopping::earliest, crate::specs::Stopping::settled, crate::specs::Stopping::only_reject))]
pub fn earliest(plan: &[u32], c: Counts) -> Answer
    requires { (total (stages plan.now) ≤ 1000) × (units c ≤ 1000) }
    ensures { result ≡ earliest (stages plan.now) c }
{
    if let Answer::Accept = completed(plan, 2, 0, c) {
        return Answer::Accept;
    }
    if let Answer::Reject = completed(plan, 0, 0, c) {
        return Answer::Reject;
    }
    Answer::GoOn
}
