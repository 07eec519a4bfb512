// One stage of a plan: the words that it is, rejection, acceptance, and the answer at its end. Document 01, "Plan" and
// "Four ways to stop".
ghost use Rattle.std.specs.Prelude.{◌≡◌, ◌≤◌, [], MatchOption};
ghost use Rattle.plan.specs.Counts.{units};
ghost use Rattle.plan.specs.Plan.{stages, first, FirstAndRest, marked};
ghost use Rattle.plan.specs.Stopping.{state, goes_on, rejects, accepts, at_end};

use crate::counts::Counts;

// As both acceptance numbers of a stage: acceptance is not permitted there. Document 02, change 1.
const NOT_PERMITTED: u32 = 4294967295;

// What a stopping rule answers to the units so far. Document 01 has three states, so that this is no Option of a
// verdict.
#[derive(Clone, Copy, Debug, PartialEq, Eq)]
pub enum Answer {
    GoOn,
    Accept,
    Reject,
}

impl Answer {
    // A method, and no From: it has a contract by the definition, and says which number of a state it is.
    // The number of the state: 0 undecided, 1 accepted, 2 rejected.
    pub fn number(self) -> u32
        ensures { result ≡ state self }
    {
        match self {
            Answer::GoOn => 0,
            Answer::Accept => 1,
            Answer::Reject => 2,
        }
    }

    pub fn goes_on(self) -> bool
        ensures { result ≡ goes_on self }
    {
        matches!(self, Answer::GoOn)
    }
}

// Its size, and its acceptance and rejection numbers: of nongood units (1) and of bad units (2).
#[derive(Clone, Copy, Debug, PartialEq, Eq)]
pub struct Stage {
    pub size: u32,
    pub accept1: u32,
    pub reject1: u32,
    pub accept2: u32,
    pub reject2: u32,
}

impl From<[u32; 5]> for Stage {
    ghost from_gives = { λ words s. s ≡ first words };

    #[tactic(auto, unfolding(crate::specs::Plan::first))]
    fn from(words: [u32; 5]) -> Stage {
        let [size, accept1, reject1, accept2, reject2] = words;
        Stage {
            size,
            accept1,
            reject1,
            accept2,
            reject2,
        }
    }
}

// The first stage of a run of words, and the words after it. A stage that lacks words is none.
// Loops go by it with `while let`: what is left and the units before it come along, as in the definitions.
pub(crate) fn split_first(plan: &[u32]) -> Option<(Stage, &[u32])>
    ensures { MatchOption result (stages plan.now ≡ []) (λ p. FirstAndRest plan.now p.0 p.1.now) }
{
    let (words, rest) = plan.split_first_chunk::<5>()?;
    Some((Stage::from(*words), rest))
}

impl Stage {
    // Do the units reach a rejection number?
    #[tactic(auto, unfolding(crate::specs::Stopping::rejects))]
    pub(crate) fn rejects(self, c: Counts) -> bool
        requires { units c ≤ 1000 }
        ensures { result ≡ rejects self c }
    {
        self.reject2 <= c.bad || self.reject1 <= c.marginal + c.bad
    }

    // Is acceptance not permitted?
    #[tactic(auto, unfolding(crate::specs::Plan::marked))]
    pub(crate) fn marked(self) -> bool
        ensures { result ≡ marked self }
    {
        self.accept1 == NOT_PERMITTED && self.accept2 == NOT_PERMITTED
    }

    // Is acceptance permitted, and are so many bad and so many nongood units within the acceptance numbers?
    #[tactic(auto, unfolding(crate::specs::Stopping::accepts))]
    pub(crate) fn accepts(self, bad: u32, nongood: u32) -> bool
        ensures { result ≡ accepts self bad nongood }
    {
        !self.marked() && bad <= self.accept2 && nongood <= self.accept1
    }

    // The uncurtailed answer at the stage's end.
    #[tactic(auto, unfolding(crate::specs::Stopping::at_end, crate::specs::Stopping::decide))]
    pub(crate) fn at_end(self, c: Counts) -> Answer
        requires { units c ≤ 1000 }
        ensures { result ≡ at_end self c }
    {
        if self.rejects(c) {
            return Answer::Reject;
        }
        if self.accepts(c.bad, c.marginal + c.bad) {
            return Answer::Accept;
        }
        Answer::GoOn
    }
}

// A stage, and the units after which it ends.
#[derive(Clone, Copy)]
pub(crate) struct StageEnd {
    pub stage: Stage,
    pub end: u32,
    ghost few: { end ≤ 1000 },
}
