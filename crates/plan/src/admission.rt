// Which plans are admitted. Document 01, "Plan"; document 02, change 1.
ghost use Rattle.std.specs.Prelude.{◌≡◌, ◌+◌, ◌≤◌, ◌<◌, ◌∷◌, MatchOption};
ghost use Rattle.plan.specs.Plan.{stages, admitted, numbered_rules, rules};
ghost use Rattle.plan.specs.Row.{row_step, row_end, stage_step, last_step, marked_step};

use crate::stage::{Stage, StageEnd, split_first};

// The acceptance and the rejection number of one row: of nongood units, or of bad ones.
#[derive(Clone, Copy)]
struct Row {
    accept: u32,
    reject: u32,
}

// Two functions: the fields are the plan's words, as document 01 lists them, and no parameter picks a field.
fn nongood_row(stage: Stage) -> Row
    ensures { (result.accept ≡ stage.accept1) × (result.reject ≡ stage.reject1) }
{
    Row {
        accept: stage.accept1,
        reject: stage.reject1,
    }
}

fn bad_row(stage: Stage) -> Row
    ensures { (result.accept ≡ stage.accept2) × (result.reject ≡ stage.reject2) }
{
    Row {
        accept: stage.accept2,
        reject: stage.reject2,
    }
}

// One row at a stage that ends after `end` units; the next stage is the last or not, a bool as the rule has it.
#[tactic(auto, unfolding(crate::specs::Row::row_step))]
fn row_step(row: Row, next: Row, end: u32, last: bool) -> bool
    requires { end ≤ 1000 }
    ensures { result ≡ row_step row.accept row.reject next.accept next.reject end last }
{
    row.accept < end
        && row.accept + 1 < row.reject
        && row.reject <= next.reject
        && row.accept <= next.accept
        && (!last || row.accept < next.accept)
}

// One row at the last stage, which ends after `end` units.
#[tactic(auto, unfolding(crate::specs::Row::row_end))]
fn row_end(row: Row, end: u32) -> bool
    requires { end ≤ 1000 }
    ensures { result ≡ row_end row.accept row.reject end }
{
    row.accept < end && row.accept + 1 == row.reject && row.reject <= end
}

// The stage after `before` units, if it ends by 1,000 units: no plan has more.
fn ending(stage: Stage, before: u32) -> Option<StageEnd>
    requires { before ≤ 1000 }
    ensures { MatchOption result (1000 < before + stage.size) (λ e. (e.stage ≡ stage) × (e.end ≡ before + stage.size)) }
{
    if stage.size > 1000 - before {
        return None;
    }
    let end = before + stage.size;
    Some(StageEnd { stage, end })
}

impl StageEnd {
    // The rules on a stage with acceptance numbers and the next one, which is the last or not.
    #[tactic(auto, unfolding(crate::specs::Row::stage_step))]
    fn stage_step(self, next: Stage, last: bool) -> bool
        ensures { result ≡ stage_step self.stage next self.end last }
    {
        let StageEnd { stage, end } = self;
        1 <= stage.size
            && stage.accept2 <= stage.accept1
            && stage.reject2 <= stage.reject1
            && row_step(nongood_row(stage), nongood_row(next), end, last)
            && row_step(bad_row(stage), bad_row(next), end, last)
    }

    // The rules on the last stage.
    #[tactic(auto, unfolding(crate::specs::Row::last_step))]
    fn last_step(self) -> bool
        ensures { result ≡ last_step self.stage self.end }
    {
        let StageEnd { stage, end } = self;
        1 <= stage.size
            && stage.reject1 <= 60
            && stage.accept2 <= stage.accept1
            && stage.reject2 <= stage.reject1
            && row_end(nongood_row(stage), end)
            && row_end(bad_row(stage), end)
    }
}

// The rules on stages with acceptance numbers: `first`, which comes after `before` units, and those of `plan` after
// it. A marked one among them breaks the rule that an acceptance number is below the stage's end.
#[tactic(auto, using(crate::proofs::Words::next_last, crate::proofs::Words::too_many, crate::proofs::Words::at_last, crate::proofs::Words::step_fails, crate::proofs::Words::step_holds))]
fn numbered_rules(first: Stage, plan: &[u32], before: u32) -> bool
    requires { before ≤ 1000 }
    ensures { result ≡ numbered_rules before (first ∷ stages plan.now) }
{
    let mut stage = first;
    let mut left = plan;
    let mut end = before;
    while let Some((next, rest)) = split_first(left) {
        let Some(there) = ending(stage, end) else {
            return false;
        };
        if !there.stage_step(next, rest.len() < 5) {
            return false;
        }
        end = there.end;
        stage = next;
        left = rest;
    }
    match ending(stage, end) {
        Some(there) => there.last_step(),
        None => false,
    }
}

// The rejection numbers of a marked stage, and the next one.
#[tactic(auto, unfolding(crate::specs::Row::marked_step))]
fn marked_step(stage: Stage, next: Stage) -> bool
    ensures { result ≡ marked_step stage.reject1 stage.reject2 next.reject1 next.reject2 }
{
    1 <= stage.reject2
        && stage.reject2 <= stage.reject1
        && stage.reject1 <= next.reject1
        && stage.reject2 <= next.reject2
}

// The rules on all stages, `first` and those of `plan`: on the marked ones ahead, and on the others.
#[tactic(auto, using(crate::proofs::Marked::rules_numbered, crate::proofs::Marked::rules_last, crate::proofs::Marked::too_many, crate::proofs::Marked::no_units, crate::proofs::Marked::step_fails, crate::proofs::Marked::step_holds))]
fn rules(first: Stage, plan: &[u32]) -> bool
    ensures { result ≡ rules 0 (first ∷ stages plan.now) }
{
    let mut stage = first;
    let mut left = plan;
    let mut before = 0;
    // Not a `for`: how many stages are marked is found stage by stage.
    while stage.marked() {
        let Some((next, rest)) = split_first(left) else {
            return false;
        };
        if stage.size < 1 {
            return false;
        }
        if 1000 - before < stage.size {
            return false;
        }
        if !marked_step(stage, next) {
            return false;
        }
        before += stage.size;
        stage = next;
        left = rest;
    }
    numbered_rules(stage, left, before)
}

// Is the plan admitted?
pub fn admitted(plan: &[u32]) -> bool
    ensures { result ≡ admitted plan.now }
{
    if plan.len() % 5 != 0 {
        return false;
    }
    if 35 < plan.len() {
        return false;
    }
    match split_first(plan) {
        Some((first, rest)) => rules(first, rest),
        None => false,
    }
}
