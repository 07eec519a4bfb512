// The chance of acceptance, as whole numbers of 2^-40 and as floats, that of a lot of known size, and the expected
// number of units, as whole numbers of 2^-30 and as floats. Document 01, "Chance of acceptance" and "Refused";
// document 02, changes 2 and 6.
ghost use Rattle.std.specs.Prelude.{◌≡◌, [], ◌∷◌, length, MatchResult};
ghost use Rattle.plan.specs.Refusal.{number as refusal_number};
ghost use Rattle.chance.specs.Reply.{weights_of, bounds_reply, chart_reply, chart_values, chance_answer, chart_answer, ExactChart, Keeps};
ghost use Rattle.chance.specs.Lot.{lot_answer, LotKeeps};
ghost use Rattle.chance.specs.Units.{units_answer, units_chart_answer, ExactUnitsChart};
ghost use Rattle.export.specs.Returned.{number, left, left_floats};

use chance::Interval;
use plan::Refusal;

// Low and high into `out`, and 0; or the refusal's number.
fn low_and_high<T: Copy>(answer: Result<Interval<T>, Refusal>, out: &mut [T; 2]) -> u32
    ensures { MatchResult answer (λ b. (result ≡ 0) × (out.new ≡ b.low ∷ b.high ∷ [])) (λ r. (result ≡ refusal_number r) × (out.new ≡ out.old)) }
{
    match answer {
        Ok(interval) => {
            out[0] = interval.low;
            out[1] = interval.high;
            0
        }
        Err(refusal) => refusal.number(),
    }
}

// Out: low, high.
#[unsafe(no_mangle)]
pub extern "C" fn haq_chance(
    plan: &[u32],
    w0: u32,
    w1: u32,
    w2: u32,
    scratch: &mut [u64],
    out: &mut [u64; 2],
) -> u32
    ensures value { result ≡ number (bounds_reply (chance_answer plan.now (weights_of w0 w1 w2) (length scratch.old))) }
    ensures out_after { out.new ≡ left (bounds_reply (chance_answer plan.now (weights_of w0 w1 w2) (length scratch.old))) out.old }
    ensures keeps { Keeps plan.now (weights_of w0 w1 w2) scratch.old scratch.new }
{
    low_and_high(chance::chance(plan, w0, w1, w2, scratch), out)
}

// Out: low / 2^40, high / 2^40, both exact.
#[unsafe(no_mangle)]
pub extern "C" fn haq_chart(
    plan: &[u32],
    w0: u32,
    w1: u32,
    w2: u32,
    scratch: &mut [u64],
    out: &mut [f64; 2],
) -> u32
    ensures value { result ≡ number (chart_reply (chart_answer plan.now (weights_of w0 w1 w2) (length scratch.old))) }
    ensures out_after { out.new ≡ left_floats (chart_reply (chart_answer plan.now (weights_of w0 w1 w2) (length scratch.old))) (chart_values (chart_answer plan.now (weights_of w0 w1 w2) (length scratch.old))) out.old }
    ensures exact_chart { ExactChart plan.now (weights_of w0 w1 w2) (chart_answer plan.now (weights_of w0 w1 w2) (length scratch.old)) }
    ensures keeps { Keeps plan.now (weights_of w0 w1 w2) scratch.old scratch.new }
{
    low_and_high(chance::chart(plan, w0, w1, w2, scratch), out)
}

// Out: low, high.
#[unsafe(no_mangle)]
pub extern "C" fn haq_lot_chance(
    plan: &[u32],
    good: u32,
    marginal: u32,
    bad: u32,
    scratch: &mut [u64],
    out: &mut [u64; 2],
) -> u32
    ensures value { result ≡ number (bounds_reply (lot_answer plan.now (weights_of good marginal bad) (length scratch.old))) }
    ensures out_after { out.new ≡ left (bounds_reply (lot_answer plan.now (weights_of good marginal bad) (length scratch.old))) out.old }
    ensures lot_keeps { LotKeeps plan.now (weights_of good marginal bad) scratch.old scratch.new }
{
    low_and_high(chance::lot_chance(plan, good, marginal, bad, scratch), out)
}

// Out: low, high, in units of 2^-30.
#[unsafe(no_mangle)]
pub extern "C" fn haq_units(
    plan: &[u32],
    w0: u32,
    w1: u32,
    w2: u32,
    scratch: &mut [u64],
    out: &mut [u64; 2],
) -> u32
    ensures value { result ≡ number (bounds_reply (units_answer plan.now (weights_of w0 w1 w2) (length scratch.old))) }
    ensures out_after { out.new ≡ left (bounds_reply (units_answer plan.now (weights_of w0 w1 w2) (length scratch.old))) out.old }
    ensures keeps { Keeps plan.now (weights_of w0 w1 w2) scratch.old scratch.new }
{
    low_and_high(chance::units(plan, w0, w1, w2, scratch), out)
}

// Out: low / 2^30, high / 2^30, both exact.
#[unsafe(no_mangle)]
pub extern "C" fn haq_units_chart(
    plan: &[u32],
    w0: u32,
    w1: u32,
    w2: u32,
    scratch: &mut [u64],
    out: &mut [f64; 2],
) -> u32
    ensures value { result ≡ number (chart_reply (units_chart_answer plan.now (weights_of w0 w1 w2) (length scratch.old))) }
    ensures out_after { out.new ≡ left_floats (chart_reply (units_chart_answer plan.now (weights_of w0 w1 w2) (length scratch.old))) (chart_values (units_chart_answer plan.now (weights_of w0 w1 w2) (length scratch.old))) out.old }
    ensures exact_units_chart { ExactUnitsChart plan.now (weights_of w0 w1 w2) (units_chart_answer plan.now (weights_of w0 w1 w2) (length scratch.old)) }
    ensures keeps { Keeps plan.now (weights_of w0 w1 w2) scratch.old scratch.new }
{
    low_and_high(chance::units_chart(plan, w0, w1, w2, scratch), out)
}
