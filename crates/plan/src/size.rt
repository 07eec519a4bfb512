// Sizes: of a plan's complete sample, and the units after which its stages end.
ghost use Rattle.std.specs.Prelude.{◌≡◌, ◌+◌, ◌≤◌};
ghost use Rattle.plan.specs.Plan.{stages, total, end_below, end_from};

use crate::stage::split_first;

// S: the units of all stages.
#[tactic(auto, using(crate::proofs::Stages::total_more, crate::proofs::Stages::total_none), unfolding(crate::specs::Plan::total))]
pub fn sample_size(plan: &[u32]) -> u32
    requires { total (stages plan.now) ≤ 1000 }
    ensures { result ≡ total (stages plan.now) }
{
    let mut left = plan;
    let mut units = 0;
    while let Some((stage, rest)) = split_first(left) {
        units += stage.size;
        left = rest;
    }
    units
}

// The stage ends on both sides of y units.
#[derive(Clone, Copy)]
struct Ends {
    below: u32,
    from: u32,
}

// The last stage end below y units, or `before` where there is none, and the first from y units on, or
// the last where there is none. The stages are those of `plan`; they come after `before` units.
#[tactic(auto, using(crate::proofs::Stages::total_more), unfolding(crate::specs::Plan::total, crate::specs::Plan::end_below, crate::specs::Plan::end_from))]
fn ends_beside(plan: &[u32], before: u32, y: u32) -> Ends
    requires { before + total (stages plan.now) ≤ 1000 }
    ensures below { result.below ≡ end_below before (stages plan.now) y }
    ensures from { result.from ≡ end_from before (stages plan.now) y }
{
    let mut left = plan;
    let mut below = before;
    while let Some((stage, rest)) = split_first(left) {
        let end = below + stage.size;
        if y <= end {
            return Ends { below, from: end };
        }
        below = end;
        left = rest;
    }
    Ends { below, from: below }
}

// Two functions: each caller asks for one of the two ends, and would take a pair apart.
pub fn end_below(plan: &[u32], before: u32, y: u32) -> u32
    requires { before + total (stages plan.now) ≤ 1000 }
    ensures { result ≡ end_below before (stages plan.now) y }
{
    ends_beside(plan, before, y).below
}

pub fn end_from(plan: &[u32], before: u32, y: u32) -> u32
    requires { before + total (stages plan.now) ≤ 1000 }
    ensures { result ≡ end_from before (stages plan.now) y }
{
    ends_beside(plan, before, y).from
}
