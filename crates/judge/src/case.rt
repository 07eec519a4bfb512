// A plan and a list that may be judged.
ghost use Rattle.std.specs.Prelude.{◌≡◌, true, IfOk, IfErr};
ghost use Rattle.plan.specs.Plan.{admitted};
ghost use Rattle.plan.specs.Sample.{are_classes};
ghost use Rattle.plan.specs.Refusal.{First};
ghost use Rattle.judge.specs.Judge.{refusals};

use plan::Refusal;

// An admitted plan, and a list of classes that a unit may have.
#[derive(Clone, Copy)]
pub struct Case<'a> {
    pub plan: &'a [u32],
    pub list: &'a [u8],
    ghost admitted: { admitted plan.now ≡ true },
    ghost classes: { are_classes list.now ≡ true },
}

// Is every class of the list one that a unit may have? The greatest decides, because a loop that does not return is
// compiled to vector code.
fn are_classes(list: &[u8]) -> bool
    ensures { result ≡ are_classes list.now }
{
    let mut greatest: u8 = 0;
    for class in list {
        greatest = greatest.max(*class);
    }
    greatest <= plan::HIGHEST_CLASS as u8
}

impl<'a> Case<'a> {
    pub fn new(plan: &'a [u32], list: &'a [u8]) -> Result<Case<'a>, Refusal>
        ensures ok { IfOk result (λ k. (k.plan.now ≡ plan.now) × (k.list.now ≡ list.now)) }
        ensures err { IfErr result (First (refusals plan.now list.now)) }
    {
        if !plan::admitted(plan) {
            return Err(Refusal::Plan);
        }
        if !are_classes(list) {
            return Err(Refusal::Class);
        }
        Ok(Case { plan, list })
    }
}
