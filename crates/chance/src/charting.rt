// Bounds as floats. Document 01, "Chance of acceptance"; document 02, change 6.
ghost use Rattle.std.specs.Prelude.{◌≡◌, ◌≤◌, length};
ghost use Rattle.chance.specs.Chance.{scale};
ghost use Rattle.chance.specs.Fraction.{divided};
ghost use Rattle.chance.specs.Reply.{weights_of, chart_answer, ExactChart, divided_bounds, Keeps};
ghost use Rattle.chance.specs.Units.{units_chart_answer, ExactUnitsChart};

use crate::acceptance::chance;
use crate::answers::{Bounds, Chart, Interval};
use crate::expected_units::units;
use plan::Refusal;

// 2^40
const CERTAIN: f64 = 1099511627776.0;

// 2^30
const UNIT: f64 = 1073741824.0;

// x / one. Where `one` is a power of two, nothing is rounded.
fn fraction(x: u64, one: f64) -> f64
    requires { x ≤ scale }
    ensures { result ≡ divided x one }
{
    x as f64 / one
}

// Both bounds divided by it.
fn fractions(bounds: Bounds, one: f64) -> Chart
    requires { (bounds.low ≤ scale) × (bounds.high ≤ scale) }
    ensures { result ≡ divided_bounds one bounds }
{
    Interval {
        low: fraction(bounds.low, one),
        high: fraction(bounds.high, one),
    }
}

// The bounds of the chance of acceptance as floats, or the refusal.
pub fn chart(plan: &[u32], w0: u32, w1: u32, w2: u32, scratch: &mut [u64]) -> Result<Chart, Refusal>
    ensures value { result ≡ chart_answer plan.now (weights_of w0 w1 w2) (length scratch.old) }
    ensures exact_chart { ExactChart plan.now (weights_of w0 w1 w2) result }
    ensures keeps { Keeps plan.now (weights_of w0 w1 w2) scratch.old scratch.new }
{
    let bounds = chance(plan, w0, w1, w2, scratch)?;
    Ok(fractions(bounds, CERTAIN))
}

// Those of the expected number of units: a call of its own, as the interface has it.
pub fn units_chart(
    plan: &[u32],
    w0: u32,
    w1: u32,
    w2: u32,
    scratch: &mut [u64],
) -> Result<Chart, Refusal>
    ensures value { result ≡ units_chart_answer plan.now (weights_of w0 w1 w2) (length scratch.old) }
    ensures exact_units_chart { ExactUnitsChart plan.now (weights_of w0 w1 w2) result }
    ensures keeps { Keeps plan.now (weights_of w0 w1 w2) scratch.old scratch.new }
{
    let bounds = units(plan, w0, w1, w2, scratch)?;
    Ok(fractions(bounds, UNIT))
}
