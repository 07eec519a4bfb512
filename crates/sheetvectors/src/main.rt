// Answers each command line of standard input by one line on standard output. The commands work on one sheet; `x`
// exchanges it with another, and `y` carries that one, as an old sheet, into it. tests/reference/lines/sheet_lines.rs
// describes them. A line's first byte is the command's kind.
// `as usize` is of a u32, which has no From.
#![tactic(auto)]

mod calls;
mod fill;
mod print;

use arrayvec::ArrayVec;
use cases::print::bad_line;
use std::{io, mem};

// The words of the sheet.
type Sheet = ArrayVec<u32, 65540>;

fn command(rt: &impl Print, line: &[u8], sheet: &mut Sheet, aside: &mut Sheet) -> io::Result<()> {
    let [kind, text @ ..] = line else {
        return bad_line(rt);
    };
    let mut words = [0; 128];
    let Some(list) = cases::words(text, &mut words) else {
        return bad_line(rt);
    };
    match (kind, list) {
        (b'n', [length, seed]) => fill::new_sheet(rt, sheet, *length, *seed),
        (b'x', []) => {
            mem::swap(sheet, aside);
            println!(rt; "ok")
        }
        (b'y', shares) => calls::carry(rt, aside.as_slice(), sheet.as_mut_slice(), shares),
        (kind, list) => calls::answer(rt, *kind, list, sheet.as_mut_slice()),
    }
}

fn main(rt: HostRuntime) -> io::Result<()> {
    let mut sheet = Sheet::new();
    let mut aside = Sheet::new();
    let mut line = [0u8; 4096];
    cases::answer_lines(
        &rt,
        rt.stdin(),
        &mut line,
        |line| command(&rt, line, &mut sheet, &mut aside),
    )
}
