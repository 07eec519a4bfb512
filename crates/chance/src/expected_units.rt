// The expected number of units at the earliest stop, between two bounds. Document 02, change 6.
ghost use Rattle.std.specs.Prelude.{◌≡◌, length};
ghost use Rattle.chance.specs.Reply.{weights_of, Keeps};
ghost use Rattle.chance.specs.Units.{units_answer};

use crate::answers::Bounds;
use crate::bounding::weighted;
use crate::mean::Weights;
use crate::setting::Worth;
use plan::Refusal;

// Low and high, in units of 2^-30, or the refusal: a call of its own, as the interface has it.
pub fn units(
    plan: &[u32],
    w0: u32,
    w1: u32,
    w2: u32,
    scratch: &mut [u64],
) -> Result<Bounds, Refusal>
    ensures value { result ≡ units_answer plan.now (weights_of w0 w1 w2) (length scratch.old) }
    ensures keeps { Keeps plan.now (weights_of w0 w1 w2) scratch.old scratch.new }
{
    weighted(plan, Weights::of(w0, w1, w2), Worth::of_units(), scratch)
}
