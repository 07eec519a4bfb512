// What the lines of an input are and what is replied to them, as definitions, and their laws. The code is in crate
// `command`.
#![tactic(auto)]
