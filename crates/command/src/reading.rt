// The letter and the numbers of a line. Document 01, "Program lots".
ghost use Rattle.std.specs.Prelude.{◌≡◌};
ghost use Rattle.commandmodel.specs.Command.{command};
ghost use Rattle.command.specs.Read.{meaning};

use crate::decimal::read_number;
use arrayvec::ArrayVec;

// The numbers of a line. No command takes more than a plan of 7 stages.
pub type Numbers = ArrayVec<u32, 35>;

// Reads a line's fields, which are parted by one space: a letter, which is given back, and numbers, which take the
// place of what `numbers` held.
pub fn read_words(line: &[u8], numbers: &mut Numbers) -> Option<u8>
    ensures { command line.now ≡ meaning result numbers.new.items }
{
    if 255 < line.len() {
        return None;
    }
    let mut fields = line.split(|byte| *byte == b' ');
    let [letter] = fields.next()? else {
        return None;
    };
    numbers.clear();
    for field in fields {
        numbers.try_push(read_number(field)?).ok()?;
    }
    Some(*letter)
}
