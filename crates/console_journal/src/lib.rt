//! The console's part for journals: what a command does to the journal that is open, and what is answered.
#![tactic(auto)]

mod answers;
mod journals;
mod laws;
mod listings;
mod looks;
mod open;
mod operations;

pub use answers::{Answer, Refusal};
pub use journals::Journals;
pub use laws::{durable_stays, records_whole};
