// The calls for C, and for every language that calls C: a static library. Each returns 0 where the call is
// granted, else the number of document 01's table "Refused". A refusal leaves `out` alone. A slice passes as
// a pointer and a length, and an array as a pointer.
// C calls each function by a name of its own, so that calls which differ in one name stay apart here. Each call of
// more than two numbers writes its own array: which number is where is all that it says.
#![tactic(auto)]

mod chances;
mod lists;
mod sheet_calls;

pub use chances::{haq_chance, haq_chart, haq_lot_chance, haq_units, haq_units_chart};
pub use lists::haq_judge;
pub use sheet_calls::{
    haq_carry, haq_close, haq_estimate, haq_fresh, haq_inspect, haq_look, haq_open, haq_strike,
    haq_tally,
};
