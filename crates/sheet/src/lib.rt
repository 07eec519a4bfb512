// A sheet: many lots in inspection on one borrowed run of words. Document 01, "Sheet". What the calls do is
// defined in crate `sheetmodel`. The calls take `sheet` and `lot` apart, as document 01 and the C interface have them.
// `as` stands where std has no From, to and from usize, and where, tried, a proof of sums did not close by `from`.
#![tactic(auto)]

mod carrying;
mod chain;
mod closing;
mod estimating;
mod fives;
mod freeing;
mod fresh_sheet;
mod granting;
mod header;
mod inspecting;
mod layout;
mod locating;
mod looking;
mod offices;
mod opening;
mod progress;
mod record;
mod records;
mod size;
mod striking;
mod sums;
mod survey;
mod totals;
mod writing;

pub use carrying::carry;
pub use closing::close;
pub use estimating::estimate;
pub use fresh_sheet::fresh;
pub use inspecting::inspect;
pub use looking::{look, tally};
pub use opening::open;
pub use sheetmodel::{Estimate, Shown, Totals};
pub use striking::strike;
