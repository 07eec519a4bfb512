// What a state is worth after one unit more.
ghost use Rattle.std.specs.Prelude.{◌≤◌};
ghost use Rattle.chance.specs.Chance.{scale};

// After a good, a marginal and a bad unit.
#[derive(Clone, Copy)]
pub struct Outcomes {
    pub good: u64,
    pub marginal: u64,
    pub bad: u64,
    ghost most: { (good ≤ scale) × (marginal ≤ scale) × (bad ≤ scale) },
}
