// A line answered on a sheet: its command's call is made, and the reply is printed. Document 01, "Program lots";
// document 02, change 7.
ghost use Rattle.std.specs.Prelude.{◌≡◌};
ghost use Rattle.commandmodel.specs.Command.{whole_stages};
ghost use Rattle.commandmodel.specs.Printed.{answer};

use crate::printing::Reply;
use crate::reading::{Numbers, read_words};
use crate::replies::{printed, refused};
use plan::Refusal;

// Are so many numbers those of 1 to 7 stages?
fn whole_stages(n: usize) -> bool
    ensures { result ≡ whole_stages n }
{
    n % 5 == 0 && 5 <= n && n <= 35
}

// Answers a line, which is without the byte 10. The reply is put in the place of what `reply` held.
pub fn answer(line: &[u8], sheet: &mut [u32], reply: &mut Reply)
    ensures reply_after { reply.new.items ≡ (answer line.now sheet.old).reply }
    ensures sheet_after { sheet.new ≡ (answer line.now sheet.old).words }
{
    let mut numbers = Numbers::new();
    let Some(letter) = read_words(line, &mut numbers) else {
        return refused(Refusal::Line, reply);
    };
    match (letter, numbers.as_slice()) {
        // Every office gets share 0.
        (b'p', plan) if whole_stages(plan.len()) => {
            printed(sheet::fresh(sheet, plan, &[0; 16]), reply)
        }
        (b'o', [lot]) => printed(sheet::open(sheet, *lot), reply),
        (b'i', [lot, class]) => printed(sheet::inspect(sheet, *lot, *class), reply),
        (b's', [lot]) => printed(sheet::strike(sheet, *lot), reply),
        (b'l', [lot]) => printed(sheet::look(sheet, *lot), reply),
        (b'c', [lot]) => printed(sheet::close(sheet, *lot), reply),
        (b't', []) => printed(sheet::tally(sheet), reply),
        _ => refused(Refusal::Line, reply),
    }
}
