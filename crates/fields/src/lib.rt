//! What a word of a line may be: a number, or bytes in hex.
#![tactic(auto)]

mod faults;
mod lines;
mod reading;

pub use faults::Fault;
pub use lines::Line;
pub use reading::{array_at, bytes_at, bytes_up_to, number_at};
