//! The console's part for the written forms: records and messages that a line spells in hex are said in words, and those
//! that it says in words are answered in hex.
#![tactic(auto)]

mod answers;
mod decoding;
mod encoding;
mod laws;
mod printing;
mod reading;
mod refusals;

pub use answers::Answer;
pub use laws::says_back;
pub use reading::read;
pub use refusals::Refusal;
