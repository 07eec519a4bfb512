// The lines of an input, read block by block.
ghost use Rattle.std.specs.Prelude.{◌≤◌, ◌≡◌, length};

use crate::print;
use std::io;
use std::io::Read;

// The bytes of the block from `at` to `count` are not yet taken.
// The block stands here, since std's BufReader takes one from an allocator, and the programs use no heap.
#[derive(Drop)]
pub struct Lines<R> {
    reader: R,
    block: [u8; 65536],
    at: usize,
    count: usize,
    ghost taken: { at ≤ count },
    ghost within: { count ≤ 65536 },
}

impl<R: Read> Lines<R> {
    pub fn new(reader: R) -> Lines<R> {
        Lines {
            reader,
            block: [0; 65536],
            at: 0,
            count: 0,
        }
    }

    // Is a byte left? Reads a block if all bytes of the one before are taken. A failed read counts as the input's end.
    fn refill(&mut self) -> bool {
        if self.at == self.count {
            let count = self.reader.read(&mut self.block).unwrap_or(0);
            self.at = 0;
            self.count = count;
        }
        self.at < self.count
    }

    // Adds the block's bytes up to the next byte 10, or all, to the n bytes of the line, as far as it has room. How many
    // bytes it has then, and does it end there?
    fn take_piece(&mut self, line: &mut [u8], n: usize) -> (usize, bool)
        requires { n ≤ length line.old }
        ensures { result.0 ≤ length line.old }
    {
        let rest = &self.block[self.at..self.count];
        let end = rest.iter().position(|byte| *byte == b'\n');
        let size = end.unwrap_or(rest.len());
        let room = size.min(line.len() - n);
        line[n..n + room].copy_from_slice(&rest[..room]);
        self.at += size + usize::from(end.is_some());
        (n + room, end.is_some())
    }

    // Reads the next line, of which `line` takes as much as it has room for, and gives what it took; none at the input's
    // end. The last line may lack its byte 10. Nothing says that a line ends: the turns are counted, up to a number that
    // no run reaches.
    pub fn read_line<'a>(&mut self, line: &'a mut [u8]) -> Option<&'a [u8]> {
        let mut n = 0;
        for _ in 0..u64::MAX {
            if !self.refill() {
                if n == 0 {
                    return None;
                }
                break;
            }
            let (more, ended) = self.take_piece(line, n);
            n = more;
            if ended {
                break;
            }
        }
        Some(&line[..n])
    }
}

// Answers each line, and ends at the first failed write. A line that fills `line` is too long. Nothing says that the
// input ends: the lines are counted, up to a number that no run reaches.
pub fn answer_lines<R: Read + Drop, F: FnMut(&[u8]) -> io::Result<()> + Drop>(
    rt: &impl Print,
    input: R,
    line: &mut [u8],
    mut answer: F,
) -> io::Result<()>
    requires { F.IsAlwaysCallable answer }
{
    let room = line.len();
    let mut lines = Lines::new(input);
    for _ in 0..u64::MAX {
        let Some(text) = lines.read_line(line) else {
            break;
        };
        if text.len() == room {
            print::bad_line(rt)?;
        } else {
            answer(text)?;
        }
    }
    Ok(())
}
