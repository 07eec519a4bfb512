// Cases on the chance of acceptance and on the expected number of units: three weights, or the numbers of units
// of a lot by class, the number of words of scratch, and the plan.
ghost use Rattle.std.specs.Prelude.{ℕ};
ghost use Rattle.chance.specs.Bounds.{Bounds};
ghost use Rattle.chance.specs.Reply.{ExactFloats};

use cases::print;
use chance::{Bounds, Chart, Interval};
use plan::Refusal;
use std::io;

// The floats of a chart, as their bit patterns.
pub fn patterns(chart: Result<Chart, Refusal>) -> Result<Bounds, Refusal>
    requires { (k : ℕ) × (b : Bounds) × ExactFloats k b chart }
{
    let Interval { low, high } = chart?;
    Ok(Interval {
        low: low.to_bits(),
        high: high.to_bits(),
    })
}

// `KIND W0 W1 W2 N P1 P2 ..`, or with `l` GOOD, MARGINAL and BAD for the weights: low and high by the kind's call. No
// word of the N of scratch is 0 before the call, since no call may count on that. The scratch is the caller's: one made
// here would be filled whole for every line.
pub fn answer<F: Fn(&[u32], [u32; 3], &mut [u64]) -> Result<Bounds, Refusal>>(
    rt: &impl Print,
    text: &[u8],
    scratch: &mut [u64],
    call: F,
) -> io::Result<()>
    requires { F.IsAlwaysCallable call }
{
    let mut list = [0; 128];
    let Some([w0, w1, w2, needed, plan @ ..]) = cases::words(text, &mut list) else {
        return print::bad_line(rt);
    };
    let Some(scratch) = scratch.get_mut(..*needed as usize) else {
        return print::bad_line(rt);
    };
    scratch.fill(u64::MAX);
    print::reply(rt, call(plan, [*w0, *w1, *w2], scratch))
}
