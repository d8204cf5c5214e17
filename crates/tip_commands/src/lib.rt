//! What the lines about signers and tips say.
#![tactic(auto)]

mod commands;
mod faults;
mod key_sets;
mod reading;

pub use commands::Command;
pub use faults::Fault;
pub use key_sets::KeySet;
pub use reading::read;

/// The fewest signers of a set.
pub const MIN_KEYS: usize = 2;

/// The most signers of a set.
pub const MAX_KEYS: usize = 16;
