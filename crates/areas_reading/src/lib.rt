//! What is read from the areas of a byte journal: the next record, and the first overrun.
#![tactic(auto)]

mod nexts;
mod overruns;

pub use nexts::next;
pub use overruns::overrun;
