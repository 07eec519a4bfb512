// Where a lot stands, by its units and the plan of its sheet.
ghost use Rattle.std.specs.Prelude.{◌≡◌, true, ◌≤◌, length};
ghost use Rattle.plan.specs.Plan.{stages, admitted};
ghost use Rattle.plan.specs.Counts.{units};
ghost use Rattle.plan.specs.Stopping.{earliest};
ghost use Rattle.sheetmodel.specs.Layout.{least_size, plan_words};

use crate::header::Header;
use plan::{Answer, Counts};

#[tactic(auto, using(plan::proofs::Promise::shape, crate::proofs::HeaderSteps::few_stages))]
pub fn answer_to(sheet: &[u32], c: Counts) -> Answer
    requires { (least_size ≤ length sheet.now) × (admitted (plan_words sheet.now) ≡ true) × (units c ≤ 1000) }
    ensures { result ≡ earliest (stages (plan_words sheet.now)) c }
{
    plan::earliest(Header { words: sheet }.plan(), c)
}
