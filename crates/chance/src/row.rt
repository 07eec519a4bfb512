// A row of a layer, the states of g nongood units, in place: from the values at y + 1 units to those at y. The
// state of g nongood and b bad units stands at g * r2 + b, for g below r1 and b below r2.
// The layer and a place in it go from function to function: a struct with the lent layer would be made anew for each
// row, and be no plainer.
ghost use Rattle.std.specs.Prelude.{◌≡◌, ◌+◌, ◌-◌, ◌*◌, ◌%◌, ◌≤◌, ◌<◌, length};
ghost use Rattle.chance.specs.Layer.{word, Valued, Between, Weighs, Filled, Further, FurtherTo, Decided, SteppedRow};
ghost use Rattle.chance.specs.Constant.{Legible, SteppedState};

use crate::constant::Constant;
use crate::means::Means;
use crate::outcomes::Outcomes;
use crate::setting::Setting;

// The words from `from` on and below `to` become `value`. The slices' own `fill` made a row's step slower.
pub fn fill(layer: &mut [u64], from: usize, to: usize, value: u64)
    requires { to ≤ length layer.old }
    ensures { Filled from to value layer.old layer.new }
{
    for i in from..to {
        layer[i] = value;
    }
}

// The value of g nongood and b bad units, which is 0 where g reaches r1.
fn value_at(layer: &[u64], s: Setting, g: usize, b: usize) -> u64
    requires room { s.r1 * s.r2 ≤ length layer.now }
    requires b_lt_r2 { b < s.r2 }
    ensures { result ≡ word s.r1 s.r2 layer.now g b }
{
    if g < s.r1 { layer[g * s.r2 + b] } else { 0 }
}

// The same, for b that may reach r2.
fn edge_value(layer: &[u64], s: Setting, g: usize, b: usize) -> u64
    requires { s.r1 * s.r2 ≤ length layer.now }
    ensures { result ≡ word s.r1 s.r2 layer.now g b }
{
    if b < s.r2 {
        value_at(layer, s, g, b)
    } else {
        0
    }
}

// The states between two numbers of bad units, where inspection goes on. From the last to the first, so that of the
// next row each word is read once: the value after a marginal unit is that of the state before after a bad one.
fn step_states<M: Means>(layer: &mut [u64], means: M, y: usize, g: usize, from: usize, to: usize)
    requires valued { Valued layer.old (M.of means) }
    requires between { Between (M.of means) y g to }
    requires weighs { Weighs (M.of means) y g from to }
    ensures { Further (M.of means) y g from to layer.old layer.new }
{
    let s = means.setting();
    let start = g * s.r2;
    let mut bad = edge_value(layer, s, g + 1, to);
    for b in (from..to).rev() {
        let marginal = value_at(layer, s, g + 1, b);
        let v = Outcomes {
            good: layer[start + b],
            marginal,
            bad,
        };
        layer[start + b] = means.value(y, g, b, v);
        bad = marginal;
    }
}

// One state, with constant weights. What is read in the next row is given back.
fn state(layer: &mut [u64], t: Constant, row: usize, next: usize, b: usize, bad: u64) -> u64
    requires { Legible layer.old (row + b) (next + b) bad }
    ensures { SteppedState t.setting (row + b) (next + b) bad layer.old layer.new result }
{
    let marginal = layer[next + b];
    let v = Outcomes {
        good: layer[row + b],
        marginal,
        bad,
    };
    layer[row + b] = t.mean(v);
    marginal
}

// The last states of those that `step_fours` steps, until four go into the number of the others. As a `for`, which
// counts its turns, the loop became vector code, which was slower for so few.
fn odd_states(layer: &mut [u64], t: Constant, y: usize, g: usize, from: usize, to: usize) -> u64
    requires valued { Valued layer.old t.setting }
    requires between { Between t.setting y g to }
    requires g_bound { (g + 1 < t.setting.r1) × (from ≤ to) }
    ensures { FurtherTo t.setting y g from to layer.old layer.new result (to - (to - from) % 4) }
{
    let row = g * t.setting.r2;
    let next = row + t.setting.r2;
    let mut bad = edge_value(layer, t.setting, g + 1, to);
    let mut b = to;
    while (b - from) % 4 != 0 {
        b -= 1;
        bad = state(layer, t, row, next, b, bad);
    }
    bad
}

// The same states with constant weights, in a row before the last, in a form that is faster. Four a turn was the
// fastest of those that were timed (docs/DECISIONS.md); with a `for` over the turns it was slower.
fn step_fours(layer: &mut [u64], t: Constant, y: usize, g: usize, from: usize, to: usize)
    requires valued { Valued layer.old t.setting }
    requires between { Between t.setting y g to }
    requires g_bound { g + 1 < t.setting.r1 }
    ensures { Further t.setting y g from to layer.old layer.new }
{
    if to <= from {
        return;
    }
    let row = g * t.setting.r2;
    let next = row + t.setting.r2;
    let mut bad = odd_states(layer, t, y, g, from, to);
    let mut b = to - (to - from) % 4;
    while from < b {
        b -= 4;
        let third = state(layer, t, row, next, b + 3, bad);
        let second = state(layer, t, row, next, b + 2, third);
        let first = state(layer, t, row, next, b + 1, second);
        bad = state(layer, t, row, next, b, first);
    }
}

// The states of a row where inspection goes on, by their bad units: from `from` on and below `to`.
// The ends go apart to the walks: a walk's contract names both, and `odd_states` gives back another upper one.
#[derive(Clone, Copy)]
pub struct Undecided {
    pub from: usize,
    pub to: usize,
}

// Writes the other states of a row: below `accept` bad units they are accepted, from `reject` on they are rejected.
fn write_decided(layer: &mut [u64], s: Setting, g: usize, accept: usize, reject: usize) -> Undecided
    requires valued { Valued layer.old s }
    requires g_lt_r1 { (g < s.r1) × (g ≤ 1000) }
    ensures { Decided s g accept reject layer.old layer.new result }
{
    let end = (g + 1).min(s.r2);
    let from = accept.min(end);
    let to = reject.min(end);
    let start = g * s.r2;
    fill(layer, start + to, start + end, 0);
    fill(layer, start, start + from, s.worth.accepted);
    Undecided { from, to }
}

pub fn step_row<M: Means>(
    layer: &mut [u64],
    means: M,
    y: usize,
    g: usize,
    accept: usize,
    reject: usize,
)
    requires valued { Valued layer.old (M.of means) }
    requires g_lt_r1 { (g < (M.of means).r1) × (g ≤ y) × (y ≤ 1000) }
    requires weighs { Weighs (M.of means) y g accept reject }
    ensures { SteppedRow (M.of means) y g accept reject layer.old layer.new }
{
    let undecided = write_decided(layer, means.setting(), g, accept, reject);
    step_states(layer, means, y, g, undecided.from, undecided.to);
}

// The same with constant weights before the last row, where no state is accepted: most rows are of this kind.
pub fn open_row(layer: &mut [u64], t: Constant, y: usize, g: usize, reject: usize)
    requires valued { Valued layer.old t.setting }
    requires g_bound { (g + 1 < t.setting.r1) × (g ≤ y) × (y ≤ 1000) }
    ensures { SteppedRow t.setting y g 0 reject layer.old layer.new }
{
    let undecided = write_decided(layer, t.setting, g, 0, reject);
    step_fours(layer, t, y, g, undecided.from, undecided.to);
}
