// Words in fives, from the plan on, as fresh and carry write them. Document 01, "Sheet".
ghost use Rattle.std.specs.Prelude.{◌≡◌, ◌+◌, ◌≤◌, ◌%◌, length};
ghost use Rattle.std.proofs.Math.Seq.{paste};
ghost use Rattle.sheetmodel.specs.Layout.{plan_start};

use crate::layout::PLAN_START;

// Stages, or all seven and the totals, which are five words too. One copy of all words would call the C library, of
// which the export needs no more than `memset`. Five words that are all read before one is written are two moves: the
// compiler need not allow for an overlap.
#[tactic(auto, using(crate::proofs::FivesPut::none_put, crate::proofs::FivesPut::five_fits, crate::proofs::FivesPut::five_more, crate::proofs::FivesPut::all_put))]
pub fn put_fives(sheet: &mut [u32], words: &[u32])
    requires { (plan_start + length words.now ≤ length sheet.old) × (length words.now % 5 ≡ 0) }
    ensures { sheet.new ≡ paste sheet.old plan_start words.now (length words.now) }
{
    let mut place = PLAN_START;
    let mut rest = words;
    while let Some((five, later)) = rest.split_first_chunk::<5>() {
        let [first, second, third, fourth, fifth] = *five;
        sheet[place] = first;
        sheet[place + 1] = second;
        sheet[place + 2] = third;
        sheet[place + 3] = fourth;
        sheet[place + 4] = fifth;
        place += 5;
        rest = later;
    }
}
