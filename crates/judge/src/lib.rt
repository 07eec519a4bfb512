// Lists of classes judged four ways, and the event. Document 01, "Four ways to stop" and "Lists, events,
// estimates".
// `as` stands where std has no From, to and from usize, and where, tried, a proof of sums did not close by `from`.
#![tactic(auto)]

mod case;
mod event;
mod list;
mod run;
mod stop;

pub use list::{Judgement, judge};
pub use stop::Stop;
