//! A line-driven front: lines of text in, and what each did out.
#![tactic(auto)]

mod answers;
mod consoles;
mod excerpts;
mod parts;
mod refusals;
mod summaries;

pub use answers::Answer;
pub use consoles::Console;
pub use refusals::Refused;
pub use summaries::{Counts, Summary};
