// What a sheet is and what its calls do, as definitions, and the theorem about every list of calls. The code is
// in crate `sheet`.
#![tactic(auto)]

mod reply;

pub use reply::{Estimate, Shown, Totals};
