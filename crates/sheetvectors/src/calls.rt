// The commands on a sheet: those that call the library, and those that write words between the calls.
use crate::fill;
use crate::print::reply;
use cases::print::bad_line;
use std::io;

// `g` and 16 shares, then the plan's words.
fn shared(rt: &impl Print, words: &mut [u32], list: &[u32]) -> io::Result<()> {
    let Some((shares, plan)) = list.split_first_chunk::<16>() else {
        return bad_line(rt);
    };
    reply(rt, sheet::fresh(words, plan, shares), words)
}

// `y` and 16 shares: the old sheet is carried into the words.
pub fn carry(rt: &impl Print, old: &[u32], words: &mut [u32], list: &[u32]) -> io::Result<()> {
    match list.try_into() {
        Ok(shares) => reply(rt, sheet::carry(old, words, shares), words),
        Err(_) => bad_line(rt),
    }
}

// A command of this kind, with the numbers of its line.
pub fn answer(rt: &impl Print, kind: u8, list: &[u32], words: &mut [u32]) -> io::Result<()> {
    match (kind, list) {
        (b'f', plan) => reply(rt, sheet::fresh(words, plan, &[0; 16]), words),
        (b'g', _) => shared(rt, words, list),
        (b'o', [lot]) => reply(rt, sheet::open(words, *lot), words),
        (b'i', [lot, class]) => reply(rt, sheet::inspect(words, *lot, *class), words),
        (b's', [lot]) => reply(rt, sheet::strike(words, *lot), words),
        (b'c', [lot]) => reply(rt, sheet::close(words, *lot), words),
        (b'l', [lot]) => reply(rt, sheet::look(words, *lot), words),
        (b't', []) => reply(rt, sheet::tally(words), words),
        (b'e', [lot]) => reply(rt, sheet::estimate(words, *lot), words),
        (b'w', [index, several @ ..]) => fill::run(rt, words, *index, several),
        (b'p', [index, word]) => fill::word(rt, words, *index, *word),
        (b'a', [index, stride, count, start, step]) => {
            fill::several(rt, words, [*index, *stride, *count, *start, *step])
        }
        _ => bad_line(rt),
    }
}
