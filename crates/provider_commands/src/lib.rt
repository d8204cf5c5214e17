//! What the lines about providers say.
#![tactic(auto)]

mod commands;
mod faults;
mod reading;

pub use commands::{Command, Kind, Question, SignerSet};
pub use faults::Fault;
pub use reading::read;
