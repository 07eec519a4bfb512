// Answers each case line of standard input by one line on standard output. A line's first byte is its kind, a letter
// of the format of the cases. A new kind needs an arm in `answer_case` and a function on the rest of the line, in its
// own module.
// `as usize` is of a u32, which has no From.
#![tactic(auto)]

mod chances;
mod lists;
mod plans;

use cases::print;
use chances::{answer, patterns};
use std::io;

fn answer_case(rt: &impl Print, line: &[u8], scratch: &mut [u64]) -> io::Result<()> {
    let [kind, text @ ..] = line else {
        return print::bad_line(rt);
    };
    match kind {
        b'a' => plans::admission(rt, text),
        b'j' => lists::judged(rt, text),
        b'c' => answer(rt, text, scratch, |plan, [w0, w1, w2], scratch| {
            chance::chance(plan, w0, w1, w2, scratch)
        }),
        b'f' => answer(rt, text, scratch, |plan, [w0, w1, w2], scratch| {
            patterns(chance::chart(plan, w0, w1, w2, scratch))
        }),
        b'l' => answer(rt, text, scratch, |plan, [good, marginal, bad], scratch| {
            chance::lot_chance(plan, good, marginal, bad, scratch)
        }),
        b'u' => answer(rt, text, scratch, |plan, [w0, w1, w2], scratch| {
            chance::units(plan, w0, w1, w2, scratch)
        }),
        b'v' => answer(rt, text, scratch, |plan, [w0, w1, w2], scratch| {
            patterns(chance::units_chart(plan, w0, w1, w2, scratch))
        }),
        _ => print::bad_line(rt),
    }
}

fn main(rt: HostRuntime) -> io::Result<()> {
    // enough for every admitted plan
    let mut scratch = [0u64; 7200];
    let mut line = [0u8; 4096];
    cases::answer_lines(
        &rt,
        rt.stdin(),
        &mut line,
        |line| answer_case(&rt, line, &mut scratch),
    )
}
