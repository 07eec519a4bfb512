// Runs the starred rows of document 01, "Known lots", through the code: a line of numbers for each row,
// in the order of specs/Known.antt.
#![tactic(auto)]

use cases::print;
use plan::Refusal;
use sheet::Estimate;
use std::io;

fn judged(rt: &impl Print, plan: &[u32], list: &[u8]) -> io::Result<()> {
    print::reply(rt, judge::judge(plan, list))
}

// The estimate of lot 7 with classes 1, 2, 2.
fn lot_estimate(plan: &[u32]) -> Result<Estimate, Refusal> {
    let mut words = [0; 76];
    sheet::fresh(&mut words, plan, &[0; 16])?;
    sheet::open(&mut words, 7)?;
    for class in [1, 2, 2] {
        sheet::inspect(&mut words, 7, class)?;
    }
    sheet::estimate(&words, 7)
}

fn estimate(rt: &impl Print, plan: &[u32]) -> io::Result<()> {
    print::reply(rt, lot_estimate(plan))
}

fn bounds(rt: &impl Print, plan: &[u32], [w0, w1, w2]: [u32; 3]) -> io::Result<()> {
    print::reply(rt, chance::chance(plan, w0, w1, w2, &mut [u64::MAX; 2]))
}

fn main(rt: HostRuntime) -> io::Result<()> {
    let a = [5, 2, 3, 1, 2];
    let b = [10, 0, 3, 0, 3, 1, 5, 6, 5, 6];
    let one = [1, 0, 1, 0, 1];
    judged(&rt, &a, &[0, 0, 0, 0])?;
    judged(&rt, &a, &[0, 0, 0, 1])?;
    judged(&rt, &a, &[0, 0, 0])?;
    judged(&rt, &a, &[1, 1, 0, 0, 0])?;
    judged(&rt, &a, &[2, 2])?;
    judged(&rt, &a, &[1, 1, 2])?;
    judged(&rt, &a, &[1, 2, 2])?;
    estimate(&rt, &a)?;
    judged(&rt, &b, &[0; 10])?;
    judged(&rt, &b, &[2, 0, 0, 0, 0, 0, 0, 0, 0, 0, 0])?;
    bounds(&rt, &one, [1, 1, 1])?;
    bounds(&rt, &one, [1, 0, 1])
}
