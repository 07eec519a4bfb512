// The answers, one line each: a reply, then the digest of all words of the sheet.
use cases::print::{last, number, text};
use plan::Refusal;
use sheet::{Estimate, Shown, Totals};
use std::io;

// What a granted call gives, and a space after it. Not `Display`: `()` has none, and a lot's state as a number is of
// the test format alone.
pub trait Granted {
    fn print(self, rt: &impl Print) -> io::Result<()>;
}

impl Granted for () {
    fn print(self, rt: &impl Print) -> io::Result<()> {
        text(rt, b"ok ")
    }
}

impl Granted for Shown {
    fn print(self, rt: &impl Print) -> io::Result<()> {
        let Shown {
            answer,
            units,
            good,
            marginal,
            bad,
            blanks,
        } = self;
        print!(rt;
            "{} {units} {good} {marginal} {bad} {blanks} ",
            answer.number()
        )
    }
}

impl Granted for Totals {
    fn print(self, rt: &impl Print) -> io::Result<()> {
        let Totals {
            accepted,
            rejected,
            good,
            marginal,
            bad,
        } = self;
        print!(rt; "{accepted} {rejected} {good} {marginal} {bad} ")
    }
}

impl Granted for Estimate {
    fn print(self, rt: &impl Print) -> io::Result<()> {
        print!(rt; "{self} ")
    }
}

// From 0, each word in turn makes h into h × 31 + word modulo 4294967291.
fn digest(words: &[u32]) -> u64 {
    words.iter().fold(0, |h: u64, word| {
        ((h % 4294967291) * 31 + u64::from(*word)) % 4294967291
    })
}

pub fn reply<T: Granted>(
    rt: &impl Print,
    reply: Result<T, Refusal>,
    words: &[u32],
) -> io::Result<()> {
    match reply {
        Ok(granted) => granted.print(rt)?,
        Err(refusal) => {
            text(rt, b"no ")?;
            number(rt, u64::from(refusal.number()))?;
        }
    }
    last(rt, digest(words))
}
