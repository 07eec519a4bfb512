// The calls on a sheet. Document 01, "Sheet" and "Refused"; document 02, change 8.
ghost use Rattle.std.specs.Prelude.{◌≡◌};
ghost use Rattle.sheetmodel.specs.Calls.{fresh, open_lot, inspect, strike, close, look, tally};
ghost use Rattle.sheetmodel.specs.Carry.{carry};
ghost use Rattle.sheetmodel.specs.Estimate.{estimate};
ghost use Rattle.sheetmodel.specs.Reply.{done_reply, look_reply, tally_reply, estimate_reply};
ghost use Rattle.export.specs.Returned.{number, left};

use plan::Refusal;

// 0 where the call is granted, else the refusal's number.
fn number_of(done: Result<(), Refusal>) -> u32
    ensures { result ≡ number (done_reply done) }
{
    match done {
        Ok(()) => 0,
        Err(refusal) => refusal.number(),
    }
}

#[unsafe(no_mangle)]
pub extern "C" fn haq_fresh(sheet: &mut [u32], plan: &[u32], shares: &[u32; 16]) -> u32
    ensures value { result ≡ number (done_reply (fresh plan.now shares.now sheet.old).reply) }
    ensures sheet_after { sheet.new ≡ (fresh plan.now shares.now sheet.old).words }
{
    number_of(sheet::fresh(sheet, plan, shares))
}

// The old sheet is only read.
#[unsafe(no_mangle)]
pub extern "C" fn haq_carry(old: &[u32], sheet: &mut [u32], shares: &[u32; 16]) -> u32
    ensures value { result ≡ number (done_reply (carry old.now shares.now sheet.old).reply) }
    ensures sheet_after { sheet.new ≡ (carry old.now shares.now sheet.old).words }
{
    number_of(sheet::carry(old, sheet, shares))
}

#[unsafe(no_mangle)]
pub extern "C" fn haq_open(sheet: &mut [u32], lot: u32) -> u32
    ensures value { result ≡ number (done_reply (open_lot lot sheet.old).reply) }
    ensures sheet_after { sheet.new ≡ (open_lot lot sheet.old).words }
{
    number_of(sheet::open(sheet, lot))
}

#[unsafe(no_mangle)]
pub extern "C" fn haq_inspect(sheet: &mut [u32], lot: u32, class: u32) -> u32
    ensures value { result ≡ number (done_reply (inspect lot class sheet.old).reply) }
    ensures sheet_after { sheet.new ≡ (inspect lot class sheet.old).words }
{
    number_of(sheet::inspect(sheet, lot, class))
}

#[unsafe(no_mangle)]
pub extern "C" fn haq_strike(sheet: &mut [u32], lot: u32) -> u32
    ensures value { result ≡ number (done_reply (strike lot sheet.old).reply) }
    ensures sheet_after { sheet.new ≡ (strike lot sheet.old).words }
{
    number_of(sheet::strike(sheet, lot))
}

#[unsafe(no_mangle)]
pub extern "C" fn haq_close(sheet: &mut [u32], lot: u32) -> u32
    ensures value { result ≡ number (done_reply (close lot sheet.old).reply) }
    ensures sheet_after { sheet.new ≡ (close lot sheet.old).words }
{
    number_of(sheet::close(sheet, lot))
}

// Out: state, units, good, marginal, bad, and the blanks among the marginal.
#[unsafe(no_mangle)]
pub extern "C" fn haq_look(sheet: &[u32], lot: u32, out: &mut [u32; 6]) -> u32
    ensures value { result ≡ number (look_reply (look lot sheet.now).reply) }
    ensures out_after { out.new ≡ left (look_reply (look lot sheet.now).reply) out.old }
{
    match sheet::look(sheet, lot) {
        Err(refusal) => refusal.number(),
        Ok(s) => {
            *out = [
                s.answer.number(),
                s.units,
                s.good,
                s.marginal,
                s.bad,
                s.blanks,
            ];
            0
        }
    }
}

// Out: lots accepted, lots rejected, good, marginal, bad.
#[unsafe(no_mangle)]
pub extern "C" fn haq_tally(sheet: &[u32], out: &mut [u32; 5]) -> u32
    ensures value { result ≡ number (tally_reply (tally sheet.now).reply) }
    ensures out_after { out.new ≡ left (tally_reply (tally sheet.now).reply) out.old }
{
    match sheet::tally(sheet) {
        Err(refusal) => refusal.number(),
        Ok(t) => {
            *out = [t.accepted, t.rejected, t.good, t.marginal, t.bad];
            0
        }
    }
}

// Out: good, marginal, bad, the denominator.
#[unsafe(no_mangle)]
pub extern "C" fn haq_estimate(sheet: &[u32], lot: u32, out: &mut [u64; 4]) -> u32
    ensures value { result ≡ number (estimate_reply (estimate lot sheet.now).reply) }
    ensures out_after { out.new ≡ left (estimate_reply (estimate lot sheet.now).reply) out.old }
{
    match sheet::estimate(sheet, lot) {
        Err(refusal) => refusal.number(),
        Ok(e) => {
            *out = [e.good, e.marginal, e.bad, e.over];
            0
        }
    }
}
