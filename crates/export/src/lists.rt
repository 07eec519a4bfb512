// A list judged four ways. Document 01, "Lists, events, estimates" and "Refused".
ghost use Rattle.std.specs.Prelude.{◌≡◌, ◌≤◌};
ghost use Rattle.plan.specs.Counts.{units};
ghost use Rattle.judge.specs.Judge.{judged, judge_reply};
ghost use Rattle.export.specs.Returned.{number, left};

use judge::Stop;

// After how many units; no way stops after 1,000.
fn stop_of(s: Stop) -> u32
    requires { units s.counts ≤ 1000 }
    ensures { result ≡ units s.counts }
{
    s.counts.units()
}

// Out: stop and state of uncurtailed, semi, full and earliest; the event.
#[unsafe(no_mangle)]
pub extern "C" fn haq_judge(plan: &[u32], list: &[u8], out: &mut [u32; 9]) -> u32
    ensures value { result ≡ number (judge_reply (judged plan.now list.now)) }
    ensures out_after { out.new ≡ left (judge_reply (judged plan.now list.now)) out.old }
{
    match judge::judge(plan, list) {
        Err(refusal) => refusal.number(),
        Ok(j) => {
            *out = [
                stop_of(j.uncurtailed),
                j.uncurtailed.answer.number(),
                stop_of(j.semi),
                j.semi.answer.number(),
                stop_of(j.full),
                j.full.answer.number(),
                stop_of(j.earliest),
                j.earliest.answer.number(),
                j.event,
            ];
            0
        }
    }
}
