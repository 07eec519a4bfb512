// The bytes of an input, block by block, to replies on a sheet. Document 01, "Program lots".
ghost use Rattle.std.specs.Prelude.{◌≡◌, ◌+◌, ◌≤◌, eqb, [], length, take, position};
ghost use Rattle.commandmodel.specs.Blocks.{kept, fed, input_ended, taken};
ghost use Rattle.commandmodel.specs.Printed.{end_of_line, longest_reply, answer};
ghost use Rattle.command.specs.Written.{written, Gives};
ghost use Rattle.command.specs.Taking.{Left, Progress};

use crate::answering::answer;
use crate::printing::{LONGEST_REPLY, Reply};
use arrayvec::ArrayVec;

// What is kept of a line that has not ended yet: a byte more than a line may have, so that a line that is too
// long is known by it.
pub type Line = ArrayVec<u8, 256>;

// How many bytes were taken, and how many of replies were written.
#[derive(Clone, Copy)]
pub struct Taken {
    pub bytes: usize,
    pub replies: usize,
}

// Adds bytes to a line, as long as there is room.
#[tactic(auto, using(crate::proofs::Kept::kept_room))]
fn keep(line: &mut Line, bytes: &[u8])
    ensures { line.new.items ≡ kept line.old.items bytes.now }
{
    let room = line.remaining_capacity().min(bytes.len());
    line.try_extend_from_slice(&bytes[..room]).unwrap();
}

// Answers the line that ends with `rest`, and leaves an empty one.
#[tactic(auto, using(crate::proofs::Kept::kept_rest))]
fn answer_rest(line: &mut Line, rest: &[u8], sheet: &mut [u32], reply: &mut Reply)
    ensures reply_after { reply.new.items ≡ (answer (kept line.old.items rest.now) sheet.old).reply }
    ensures sheet_after { sheet.new ≡ (answer (kept line.old.items rest.now) sheet.old).words }
    ensures line_after { line.new.items ≡ [] }
{
    // A line that lies whole in the block is not copied.
    if line.is_empty() {
        return answer(rest, sheet, reply);
    }
    keep(line, rest);
    answer(line.as_slice(), sheet, reply);
    line.clear();
}

// Where the line ends that begins with these bytes.
fn line_end(bytes: &[u8]) -> Option<usize>
    ensures { result ≡ position (λ byte. eqb byte end_of_line) bytes.now }
{
    bytes.iter().position(|byte| *byte == b'\n')
}

// Puts a reply into the replies from a place on. The result is the place after it.
fn put_reply(replies: &mut [u8], at: usize, reply: &Reply) -> usize
    requires { at + length reply.now.items ≤ length replies.old }
    ensures end { result ≡ at + length reply.now.items }
    ensures replies_after { replies.new ≡ written replies.old at reply.now.items }
{
    let end = at + reply.len();
    replies[at..end].copy_from_slice(reply.as_slice());
    end
}

// Takes the bytes of a block while there is room for one more reply. The replies are a slice, of any length: what is
// not written to stays as it is.
pub fn take_bytes(block: &[u8], line: &mut Line, sheet: &mut [u32], replies: &mut [u8]) -> Taken
    ensures bytes_value { result.bytes ≡ taken (length replies.old) line.old.items sheet.old block.now }
    ensures left { Left (fed line.old.items sheet.old (take result.bytes block.now)) replies.old result line.new.items sheet.new replies.new }
    ensures progress { Progress block.now replies.old result }
{
    let mut rest = block;
    let mut used = 0;
    let mut reply = Reply::new();
    // Not a `for` over the block's `split_inclusive`: how many lines are taken depends on the room for replies.
    while !rest.is_empty() && LONGEST_REPLY <= replies.len() - used {
        match line_end(rest) {
            None => {
                keep(line, rest);
                rest = &[];
            }
            Some(end) => {
                answer_rest(line, &rest[..end], sheet, &mut reply);
                used = put_reply(replies, used, &reply);
                rest = &rest[end + 1..];
            }
        }
    }
    Taken {
        bytes: block.len() - rest.len(),
        replies: used,
    }
}

// Answers the line that has not ended yet, if it has a byte. The result is the number of bytes written; the others of
// `replies` stay as they are.
pub fn end_input(line: &Line, sheet: &mut [u32], replies: &mut [u8]) -> usize
    requires { longest_reply ≤ length replies.old }
    ensures { Gives (input_ended line.now.items sheet.old) replies.old result replies.new sheet.new }
{
    if line.is_empty() {
        return 0;
    }
    let mut reply = Reply::new();
    answer(line.as_slice(), sheet, &mut reply);
    put_reply(replies, 0, &reply)
}
