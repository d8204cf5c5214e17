//! The signers of a map, in ascending order.
ghost use Rattle.std.specs.Prelude.{◌≤◌};

/// At most sixteen signers.
// kept: an array with its length beside it, since `Copy` was promised, and an `ArrayVec` has none; a type for this and for a
// certificate would need a `Clone` by hand, as `Bytes` does, and is longer than both
#[derive(Clone, Copy, Debug)]
pub struct Signers {
    /// The signers, and behind them what does not belong to the list.
    pub list: [u8; 16],
    /// How many of the list are the signers.
    pub len: usize,
    ghost within: { len ≤ 16 },
}
