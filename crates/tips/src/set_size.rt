//! The refusal of a set by its size.

mod number;

/// A set of signers was given that has not as many keys as there are seats, or that is empty or too large.
#[derive(Clone, Copy, Debug, PartialEq, Eq)]
pub struct SetSize {
    /// How many seats there are.
    pub seats: usize,
    /// How many keys were given.
    pub keys: usize,
}
