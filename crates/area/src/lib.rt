//! One area of a byte journal: a mark, a section in eight bytes, and then per record a mark, two length bytes and the body.
#![tactic(auto)]

mod reads;
mod records;
mod writes;

pub use reads::{defect, record, section};
pub use records::Records;
pub use writes::{append, free, start};
