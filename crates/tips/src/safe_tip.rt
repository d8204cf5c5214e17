//! The counts of the recorded tips, from which the safe tip is read.
ghost use Rattle.std.specs.Prelude.{◌≡◌, ◌+◌, ◌≤◌};
ghost use Rattle.tips.specs.Counting.{total, Topmost};
ghost use Rattle.tips.specs.Tables.{rows_of};

use crate::counts::Counts;

mod calls;
mod moves;

/// Counts the tips that the signers of a set have told, and knows the highest one that at least one honest signer has reached.
///
/// The tips themselves are in the seats, which the caller lends at each call.
#[derive(Drop)]
pub struct SafeTip {
    /// The `n - f` lowest tips, as a table from height to number of signers.
    ///
    /// The highest of them is the safe tip, which at least one honest signer has reached.
    lo: Counts,
    /// The `f` highest tips, as a table from height to number of signers.
    ///
    /// All of these may have been told by faulty signers.
    hi: Counts,
    ghost few: { total (rows_of lo) + total (rows_of hi) ≤ 16 },
    ghost top: { Topmost (rows_of lo) (rows_of hi) },
}
