// For the programs that answer test cases: the lines of standard input, the numbers of a line, and the numbers of an
// answer. Nothing here uses the heap: the programs reach no contract of C but those of reading and writing.
#![tactic(auto)]

mod lines;
pub mod print;

ghost use Rattle.std.specs.Prelude.{◌≤◌, length};

pub use lines::{Lines, answer_lines};

// The value of a decimal digit; std's `to_digit` is of a char.
fn digit(byte: u8) -> Option<u8> {
    match byte {
        b'0'..=b'9' => Some(byte - b'0'),
        _ => None,
    }
}

// The decimal number that a word is. It has at least one digit, and not at most 10, as `command`'s number has.
pub fn number(word: &[u8]) -> Option<u32> {
    let mut value: Option<u32> = None;
    for byte in word {
        let tens = value.unwrap_or(0).checked_mul(10)?;
        value = Some(tens.checked_add(u32::from(digit(*byte)?))?);
    }
    value
}

// The numbers of a line's rest, each after one space, in the list's first places; none if a word is no number, or if
// there are more than the list has room for.
pub fn words<'a>(text: &[u8], list: &'a mut [u32]) -> Option<&'a [u32]> {
    let mut n = 0;
    if !text.is_empty() {
        for word in text.strip_prefix(b" ")?.split(|byte| *byte == b' ') {
            *list.get_mut(n)? = number(word)?;
            n += 1;
        }
    }
    Some(&list[..n])
}

// The classes that a text begins with, a digit each, in the list's first places, as many as it has room for.
pub fn classes<'a>(text: &[u8], list: &'a mut [u8]) -> &'a [u8]
    ensures within { length result.now ≤ length list.old }
    ensures most { length result.now ≤ length text.now }
{
    let mut n = 0;
    for byte in text {
        let (Some(class), Some(place)) = (digit(*byte), list.get_mut(n)) else {
            break;
        };
        *place = class;
        n += 1;
    }
    &list[..n]
}
