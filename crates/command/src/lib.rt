// The bytes of an input to replies on a sheet. Document 01, "Program lots".
#![tactic(auto)]

mod answering;
mod decimal;
mod printing;
mod reading;
mod replies;
mod taking;

pub use taking::{Line, Taken, end_input, take_bytes};
