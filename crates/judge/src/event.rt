// The event at full's stop of a plan with one stage. Document 01, "Lists, events, estimates"; 003, 5.5.1.
ghost use Rattle.std.specs.Prelude.{◌≡◌, ◌≤◌};
ghost use Rattle.plan.specs.Counts.{units};
ghost use Rattle.judge.specs.Event.{event_at};
ghost use Rattle.judge.specs.Judge.{event_of};

use crate::case::Case;
use crate::stop::Stop;
use plan::Counts;

// The event with so many units, by the stage's size and rejection numbers; 0 if there is none. A number, since 01 gives
// the events no names.
// No `Stage` is passed, since the acceptance numbers have no say.
fn event_at(n: u32, r1: u32, r2: u32, c: Counts) -> u32
    requires { (r2 ≤ r1) × (r1 ≤ n) × (n ≤ 1000) × (units c ≤ 1000) }
    ensures { result ≡ event_at n r1 r2 c }
{
    let Counts {
        good,
        marginal,
        bad,
    } = c;
    let limit1 = n - r1 + 1;
    let limit2 = n - r2 + 1;
    if good + marginal == limit2 && limit1 < good {
        return 1;
    }
    if good == limit1 && r1 - r2 < marginal {
        return 2;
    }
    if good + marginal == limit2 && good == limit1 {
        return 3;
    }
    if bad == r2 && marginal < r1 - r2 {
        return 4;
    }
    if marginal + bad == r1 && bad < r2 {
        return 5;
    }
    if bad == r2 && marginal == r1 - r2 {
        return 6;
    }
    0
}

impl Case<'_> {
    // The event at full's stop; 0 with several stages or no stop.
    pub fn event_of(&self, full: Stop) -> u32
        requires { units full.counts ≤ 1000 }
        ensures { result ≡ event_of self.now.plan.now full }
    {
        let plan = self.plan;
        if plan.len() != 5 || full.answer.goes_on() {
            return 0;
        }
        event_at(plan[0], plan[2], plan[4], full.counts)
    }
}
