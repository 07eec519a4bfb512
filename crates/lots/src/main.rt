// The program of document 01, "Program lots": standard input to standard output, by crate `command`, on one
// sheet.
#![tactic(auto)]

use command::Line;
use std::io::{self, Read};

// What one read leaves to the next, and room for replies.
#[derive(Drop)]
struct Session {
    line: Line,
    sheet: [u32; 16384],
    replies: [u8; 16384],
}

impl Session {
    // Takes the bytes of a block. The replies are written when all bytes are taken, and when there is no room
    // for one more.
    fn take_block(&mut self, rt: &impl Print, block: &[u8]) -> io::Result<()> {
        let mut rest = block;
        // Not a `for`: how many bytes are taken depends on the room for replies.
        while !rest.is_empty() {
            let taken = command::take_bytes(
                rest,
                &mut self.line,
                &mut self.sheet,
                &mut self.replies,
            );
            rt.write_all(&self.replies[..taken.replies])?;
            rest = &rest[taken.bytes..];
        }
        Ok(())
    }

    // Answers the line that lacks its byte 10, if there is one.
    fn end_input(&mut self, rt: &impl Print) -> io::Result<()> {
        let used = command::end_input(&self.line, &mut self.sheet, &mut self.replies);
        rt.write_all(&self.replies[..used])
    }
}

// Answers the lines that end in what each read gives, before the next read. The input's end, a failed read and a
// failed write end the program. Nothing says that the input ends: the reads are counted, up to a number that no
// run reaches.
fn answer_input<R: Read>(rt: &impl Print, input: &mut R) -> io::Result<()> {
    let mut session = Session {
        line: Line::new(),
        sheet: [0; 16384],
        replies: [0; 16384],
    };
    let mut block = [0u8; 4096];
    for _ in 0..u64::MAX {
        match input.read(&mut block)? {
            0 => return session.end_input(rt),
            count => session.take_block(rt, &block[..count])?,
        }
    }
    Ok(())
}

// The status is 0 however the program ends.
fn main(rt: HostRuntime) {
    let _ = answer_input(&rt, &mut rt.stdin());
}
