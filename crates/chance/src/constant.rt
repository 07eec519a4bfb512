// The mean with constant weights, by two products instead of three: a marginal and a bad unit are valued by what
// they differ from a good one, with 2^40 added to each difference so that it is not negative.
ghost use Rattle.std.specs.Prelude.{◌≡◌, ◌*◌};
ghost use Rattle.chance.specs.declared.setting.Kind.TheVariants.{Same};
ghost use Rattle.chance.specs.Bounds.{weight_sum};
ghost use Rattle.chance.specs.Constant.{constant_sum};

use crate::division::Reciprocal;
use crate::mean::rounded_by;
use crate::outcomes::Outcomes;
use crate::setting::{CERTAIN, Setting};

// What is the same for all states: the weights of a marginal and of a bad unit, and what is added to the products,
// by the scale of the divisor.
#[derive(Clone, Copy)]
pub struct Constant {
    pub setting: Setting,
    pub marginal: u64,
    pub bad: u64,
    pub added: u64,
    pub divisor: Reciprocal,
    ghost same: { setting.kind ≡ Same },
    ghost of_sum: { divisor.by ≡ weight_sum setting.weights },
    ghost marginal_is: { marginal ≡ setting.weights.marginal * divisor.scale },
    ghost bad_is: { bad ≡ setting.weights.bad * divisor.scale },
    ghost added_is: { added ≡ constant_sum setting * divisor.scale },
}

impl Constant {
    ghost use Rattle.chance.specs.Constant.{constant_value};

    pub fn of(setting: Setting) -> Self
        requires { setting.kind ≡ Same }
        ensures { result.setting ≡ setting }
    {
        let w = setting.weights;
        let total = w.sum();
        let divisor = Reciprocal::of(total);
        let added = w.good * CERTAIN + total * setting.worth.cost + rounded_by(setting.up, total);
        Constant {
            setting,
            marginal: w.marginal * divisor.scale,
            bad: w.bad * divisor.scale,
            added: added * divisor.scale,
            divisor,
        }
    }

    // The cost and the mean.
    pub fn mean(self, v: Outcomes) -> u64
        ensures { result ≡ constant_value self.setting v.good v.marginal v.bad }
    {
        let rest = CERTAIN - v.good;
        let sum = self.marginal * (v.marginal + rest) + self.bad * (v.bad + rest) + self.added;
        self.divisor.quotient(sum) - rest
    }
}
