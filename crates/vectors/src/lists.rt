// Cases on a list of classes.
use cases::print;
use std::io;

// `j .CLASSES W1 W2 ..`: the list judged four ways, and the event.
pub fn judged(rt: &impl Print, text: &[u8]) -> io::Result<()> {
    let [b' ', b'.', rest @ ..] = text else {
        return print::bad_line(rt);
    };
    let mut classes = [0; 4096];
    let list = cases::classes(rest, &mut classes);
    let mut words = [0; 128];
    let Some(plan) = cases::words(&rest[list.len()..], &mut words) else {
        return print::bad_line(rt);
    };
    match judge::judge(plan, list) {
        Ok(judgement) => print::judgement(rt, judgement),
        Err(refusal) => print::refusal(rt, refusal),
    }
}
