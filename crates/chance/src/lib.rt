// Bounds on the chance of acceptance, as whole numbers of 2^-40 and as floats (document 01, "Chance of acceptance"),
// on that of a lot of known size (document 02, change 2), and on the expected number of units (change 6).
// They come by backward induction over layers: a layer has the value of each state that so many units can reach,
// and stands in a run of words.
// `as` stands where std has no From, to and from usize, and where, tried, a proof of sums did not close by `from`.
// That a plan is admitted is a clause: a type for it would hold one slice, and be no plainer. Each call takes three
// numbers, for the weights or for a lot, as document 01 and the C interface have them.
#![tactic(auto)]

mod acceptance;
mod answers;
mod backward;
mod bounding;
mod charting;
mod constant;
mod division;
mod expected_units;
mod layer;
mod lot;
mod mean;
mod means;
mod outcomes;
mod row;
mod setting;

pub use acceptance::chance;
pub use answers::{Bounds, Chart, Interval};
pub use charting::{chart, units_chart};
pub use expected_units::units;
pub use lot::lot_chance;
