// The chance of acceptance of a lot of known size, between two bounds. Document 02, change 2.
ghost use Rattle.std.specs.Prelude.{◌≡◌, length};
ghost use Rattle.chance.specs.Reply.{weights_of};
ghost use Rattle.chance.specs.Lot.{lot_answer, LotKeeps};

use crate::answers::Bounds;
use crate::bounding::{MOST, fitted};
use crate::mean::Weights;
use crate::setting::{Kind, Worth};
use plan::Refusal;

// Low and high, or the refusal, for a lot with so many units of each class. The scratch is 01's bench.
// Not one with `weighted`: the sum has another least and another refusal, which would both be parameters.
pub fn lot_chance(
    plan: &[u32],
    good: u32,
    marginal: u32,
    bad: u32,
    scratch: &mut [u64],
) -> Result<Bounds, Refusal>
    ensures value { result ≡ lot_answer plan.now (weights_of good marginal bad) (length scratch.old) }
    ensures lot_keeps { LotKeeps plan.now (weights_of good marginal bad) scratch.old scratch.new }
{
    if !plan::admitted(plan) {
        return Err(Refusal::Plan);
    }
    let lot = Weights::of(good, marginal, bad);
    let units = lot.sum();
    if units < plan::sample_size(plan) as u64 || MOST < units {
        return Err(Refusal::LotSize);
    }
    fitted(plan, scratch, Worth::of_acceptance(), lot, Kind::Left)
}
