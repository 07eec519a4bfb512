// A reply's line: a word and numbers. Document 01, "Program lots".
ghost use Rattle.std.specs.Prelude.{◌≡◌, ◌+◌, ◌*◌, ◌≤◌, length};
ghost use Rattle.commandmodel.specs.Printed.{longest_reply, reply_line};

use arrayvec::ArrayVec;
use itoa::Buffer;

// The most bytes that a reply has.
pub const LONGEST_REPLY: usize = 65;

pub type Reply = ArrayVec<u8, LONGEST_REPLY>;

// A word and numbers, each after a space, in place of what `reply` held. A reply is written where it is kept: one given
// back is copied a few times on its way.
pub fn reply_line(reply: &mut Reply, word: &[u8], numbers: &[u32])
    requires { length word.now + (11 * length numbers.now + 1) ≤ longest_reply }
    ensures { reply.new.items ≡ reply_line word.now numbers.now }
{
    let mut digits = Buffer::new();
    reply.clear();
    reply.try_extend_from_slice(word).unwrap();
    for n in numbers {
        reply.push(b' ');
        let text = digits.format(*n);
        reply.try_extend_from_slice(text.as_bytes()).unwrap();
    }
    reply.push(b'\n');
}
