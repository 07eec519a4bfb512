// Both bounds of a valuation, and the refusals. The scratch is 01's bench.
ghost use Rattle.std.specs.Prelude.{◌≡◌, true, ◌*◌, ◌^◌, ◌≤◌, ◌<◌, length};
ghost use Rattle.plan.specs.Plan.{stages, total, last_reject1, last_reject2, admitted};
ghost use Rattle.chance.specs.declared.setting.Kind.TheVariants.{Left};
ghost use Rattle.chance.specs.Bounds.{weight_sum, Proportions};
ghost use Rattle.chance.specs.Layer.{valuation, setting_value, valued_bounds, Beyond, Prepared};
ghost use Rattle.chance.specs.Reply.{fitted_words, fitted_answer, weighted_answer, Keeps};

use crate::answers::{Bounds, Interval};
use crate::backward::bound;
use crate::mean::Weights;
use crate::setting::{Kind, Setting, Worth};
use plan::Refusal;

// No weights and no lot are more.
pub const MOST: u64 = 1000000;

// The last r1 and the last r2.
#[tactic(auto, using(plan::proofs::Promise::shape))]
fn last_rejections(plan: &[u32]) -> (usize, usize)
    requires { admitted plan.now ≡ true }
    ensures { result ≡ (last_reject1 (stages plan.now), last_reject2 (stages plan.now)) }
{
    (plan[plan.len() - 3] as usize, plan[plan.len() - 1] as usize)
}

// Low and high. The lows stand in the first half of the words that are needed, and the part from
// their middle on is for the highs.
fn bounds(plan: &[u32], scratch: &mut [u64], s: Setting) -> Bounds
    requires prepared { Prepared plan.now scratch.old s }
    requires room { 2 * (s.r1 * s.r2) ≤ length scratch.old }
    ensures value { result ≡ valued_bounds plan.now (setting_value plan.now s) }
    ensures beyond { Beyond (2 * (s.r1 * s.r2)) scratch.old scratch.new }
{
    let half = s.r1 * s.r2;
    let mut rounded = s;
    rounded.up = false;
    let low = bound(plan, scratch, rounded);
    rounded.up = true;
    let high = bound(plan, &mut scratch[half..], rounded);
    Interval { low, high }
}

// Low and high, if the scratch has room for them.
#[tactic(auto, using(crate::proofs::Replies::few_words))]
pub fn fitted(
    plan: &[u32],
    scratch: &mut [u64],
    worth: Worth,
    weights: Weights,
    kind: Kind,
) -> Result<Bounds, Refusal>
    requires suits { (admitted plan.now ≡ true) × Proportions weights }
    requires enough { kind ≡ Left → total (stages plan.now) ≤ weight_sum weights }
    ensures value { result ≡ fitted_answer plan.now (valuation plan.now worth weights kind) (length scratch.old) }
    ensures beyond { Beyond (fitted_words plan.now (length scratch.old)) scratch.old scratch.new }
{
    let (r1, r2) = last_rejections(plan);
    if scratch.len() < 2 * (r1 * r2) {
        return Err(Refusal::Scratch);
    }
    let s = Setting {
        r1,
        r2,
        worth,
        weights,
        kind,
        up: false,
    };
    Ok(bounds(plan, scratch, s))
}

// The same with constant weights, or the refusal.
#[tactic(auto, using(crate::proofs::Replies::first_row, crate::proofs::Replies::own_row, crate::proofs::Replies::last_row, crate::proofs::Replies::too_heavy, crate::proofs::Replies::some_weights, crate::proofs::Replies::kept))]
pub fn weighted(
    plan: &[u32],
    weights: Weights,
    worth: Worth,
    scratch: &mut [u64],
) -> Result<Bounds, Refusal>
    requires { weight_sum weights < 2 ^ 64 }
    ensures value { result ≡ weighted_answer plan.now weights worth (length scratch.old) }
    ensures keeps { Keeps plan.now weights scratch.old scratch.new }
{
    if !plan::admitted(plan) {
        return Err(Refusal::Plan);
    }
    let sum = weights.sum();
    if sum == 0 || MOST < sum {
        return Err(Refusal::Weights);
    }
    fitted(plan, scratch, worth, weights, Kind::Same)
}
