// The answers that the programs share.
use judge::Judgement;
use plan::Refusal;
use std::fmt::Display;
use std::io;

pub fn text(rt: &impl Print, bytes: &[u8]) -> io::Result<()> {
    rt.write_all(bytes)
}

// A number, and a space after it.
pub fn number(rt: &impl Print, n: u64) -> io::Result<()> {
    print!(rt; "{n} ")
}

// The last number of a line.
pub fn last(rt: &impl Print, n: u64) -> io::Result<()> {
    println!(rt; "{n}")
}

// The answer to a line that is no case.
pub fn bad_line(rt: &impl Print) -> io::Result<()> {
    text(rt, b"bad line\n")
}

// A refusal's number, as a line.
pub fn refusal<T: Display + Drop>(rt: &impl Print, number: T) -> io::Result<()> {
    println!(rt; "no {number}")
}

// What a granted call gives as a line, or its refusal.
pub fn reply<T: Display + Drop>(rt: &impl Print, reply: Result<T, Refusal>) -> io::Result<()> {
    match reply {
        Ok(granted) => println!(rt; "{granted}"),
        Err(number) => refusal(rt, number),
    }
}

// The stops and states of the four ways, and the event, as a line.
pub fn judgement(rt: &impl Print, j: Judgement) -> io::Result<()> {
    println!(rt; "{j}")
}
