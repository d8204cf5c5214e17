//! The areas of a byte journal, one behind the other in a slice of bytes.
#![tactic(auto)]

mod finds;

pub use finds::{AREA, areas, count, find, owns, part, spare};
