// A list of classes judged four ways.
ghost use Rattle.std.specs.Prelude.{◌≡◌};
ghost use Rattle.judge.specs.Judge.{judged};

use crate::case::Case;
use crate::stop::{Stop, semi_stop};
use plan::{Refusal, StageWay, Way};
use std::fmt;

// The stops of the four ways, and the event at full's stop.
#[derive(Clone, Copy, Debug, PartialEq, Eq)]
pub struct Judgement {
    pub uncurtailed: Stop,
    pub semi: Stop,
    pub full: Stop,
    pub earliest: Stop,
    pub event: u32,
}

// The stop of each way and the event, in 01's numbers.
impl fmt::Display for Judgement {
    ghost use Rattle.std.specs.Prelude.{Some};
    ghost use Rattle.judge.specs.Printed.{judgement_printed};

    ghost output = { λ j. Some (judgement_printed j) };

    fn fmt<W: fmt::Write>(&self, f: &mut fmt::Formatter<W>) -> fmt::Result {
        let Judgement {
            uncurtailed,
            semi,
            full,
            earliest,
            event,
        } = self;
        write!(f, "{uncurtailed} {semi} {full} {earliest} {event}")
    }
}

pub fn judge(plan: &[u32], list: &[u8]) -> Result<Judgement, Refusal>
    ensures { result ≡ judged plan.now list.now }
{
    let case = Case::new(plan, list)?;
    let before = case.before_full_stop();
    let full = case.stop_after(Way::Staged(StageWay::Full), before);
    let uncurtailed = case.uncurtailed_stop(full);
    Ok(Judgement {
        uncurtailed,
        semi: semi_stop(full, uncurtailed),
        full,
        earliest: case.earliest_stop(full, before),
        event: case.event_of(full),
    })
}
