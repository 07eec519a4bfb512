// Cases on a plan alone.
use cases::print;
use plan::Refusal;
use std::io;

// `a W1 W2 ..`: is the plan admitted?
pub fn admission(rt: &impl Print, text: &[u8]) -> io::Result<()> {
    let mut words = [0; 128];
    let Some(plan) = cases::words(text, &mut words) else {
        return print::bad_line(rt);
    };
    if plan::admitted(plan) {
        println!(rt; "admitted")
    } else {
        print::refusal(rt, Refusal::Plan)
    }
}
