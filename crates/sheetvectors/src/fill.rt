// Commands that only write words.
use crate::Sheet;
use cases::print;
use std::io;

// `n LEN SEED`: a new sheet of LEN words, word i being SEED × (i + 1).
pub fn new_sheet(rt: &impl Print, sheet: &mut Sheet, length: u32, seed: u32) -> io::Result<()> {
    if sheet.capacity() < length as usize {
        return print::bad_line(rt);
    }
    sheet.clear();
    for i in 1..=length {
        let _ = sheet.try_push(seed.wrapping_mul(i));
    }
    println!(rt; "ok")
}

// `p INDEX WORD`
pub fn word(rt: &impl Print, words: &mut [u32], index: u32, value: u32) -> io::Result<()> {
    if let Some(word) = words.get_mut(index as usize) {
        *word = value;
    }
    println!(rt; "ok")
}

// `w INDEX WORD ..`: the words of the line one after another, as far as the sheet goes.
pub fn run(rt: &impl Print, words: &mut [u32], index: u32, list: &[u32]) -> io::Result<()> {
    for (word, value) in words.iter_mut().skip(index as usize).zip(list) {
        *word = *value;
    }
    println!(rt; "ok")
}

// `a INDEX STRIDE COUNT START STEP`: COUNT words, the first at INDEX, each STRIDE after the one before. It ends early
// where a place would be outside the sheet. START, and by how much each further word is more, are modulo 2^32.
pub fn several(rt: &impl Print, words: &mut [u32], list: [u32; 5]) -> io::Result<()> {
    let [index, stride, count, start, step] = list;
    for n in 0..count {
        let place = (stride as usize)
            .saturating_mul(n as usize)
            .saturating_add(index as usize);
        let Some(word) = words.get_mut(place) else {
            break;
        };
        *word = start.wrapping_add(step.wrapping_mul(n));
    }
    println!(rt; "ok")
}
