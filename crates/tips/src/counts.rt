//! A table of counts in memory.
ghost use Rattle.std.specs.Prelude.{◌≡◌, true};
ghost use Rattle.table.specs.Tables.{rows_of};
ghost use Rattle.tips.specs.Counting.{tidy};

use crate::MAX_SIGNERS;
use table::Table;
use types::Height;

mod changes;

/// How many signers have recorded each height: one row to a height, in ascending order.
#[derive(Drop)]
pub struct Counts {
    /// The heights that are recorded, each with the number of signers.
    table: Table<Height, usize, MAX_SIGNERS>,
    ghost counted: { tidy (rows_of table) ≡ true },
}
