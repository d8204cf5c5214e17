//! What the lines about journals say.
#![tactic(auto)]

mod commands;
mod faults;
mod files;
mod reading;
mod verbs;

pub use commands::{Command, Operation};
pub use faults::Fault;
pub use files::{FileLine, read_file_line};
pub use reading::read;

/// The most areas of a byte journal, and the most slots of a slot journal.
pub const MAX_UNITS: u64 = 1024;
