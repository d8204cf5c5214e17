//! How records are added to the areas of a byte journal, and old ones dropped.
#![tactic(auto)]

mod writes;

pub use writes::{append, prune};
