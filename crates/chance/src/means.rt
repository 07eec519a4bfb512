// How the values of a row's states are reckoned: with weights that are asked for at each state, or constant ones.
ghost use Rattle.std.specs.Prelude.{◌≡◌, ℕ, ◌+◌, ◌≤◌, ◌<◌};
ghost use Rattle.chance.specs.declared.setting.Setting.{Setting};
ghost use Rattle.chance.specs.Bounds.{weight_sum};
ghost use Rattle.chance.specs.Layer.{at, setting_weights, state_value};

use crate::constant::Constant;
use crate::division::Reciprocal;
use crate::outcomes::Outcomes;
use crate::setting::Setting;

pub trait Means: Copy {
    ghost of: { Self → Setting };

    fn setting(self) -> Setting
        ensures { result ≡ of self };

    // The cost of a unit and the mean of the values after it.
    fn value(self, y: usize, g: usize, b: usize, v: Outcomes) -> u64
        requires { (b ≤ g) × (g ≤ y) × (0 < weight_sum (setting_weights (of self) (at y g b))) }
        ensures { result ≡ state_value (of self) y g b v.good v.marginal v.bad };
}

// With any weights, and a number by which most of their sums in a layer are divided.
#[derive(Clone, Copy)]
pub struct Drawn {
    pub setting: Setting,
    pub divisor: Reciprocal,
}

impl Drawn {
    // In the layer of y units.
    pub fn at(setting: Setting, y: usize) -> Self
        ensures { result.setting ≡ setting }
    {
        let left = setting.weights.sum().saturating_sub(y as u64);
        Drawn {
            setting,
            divisor: Reciprocal::of(left.max(1)),
        }
    }
}

impl Means for Drawn {
    ghost of = { λ d. d.setting };

    fn setting(self) -> Setting {
        self.setting
    }

    fn value(self, y: usize, g: usize, b: usize, v: Outcomes) -> u64 {
        let s = self.setting;
        s.worth.cost + s.weights_at(y, g, b).mean(self.divisor, s.up, v)
    }
}

impl Means for Constant {
    ghost of = { λ t. t.setting };

    fn setting(self) -> Setting {
        self.setting
    }

    fn value(self, _y: usize, _g: usize, _b: usize, v: Outcomes) -> u64 {
        self.mean(v)
    }
}
