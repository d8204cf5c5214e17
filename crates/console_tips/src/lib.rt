//! The console's part for signers and tips: what a command does to the seats, and what is answered.
#![tactic(auto)]

mod answers;
mod boards;

pub use answers::{Answer, Refusal};
pub use boards::Board;
