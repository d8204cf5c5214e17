//! A table in an array of its own.
ghost use Rattle.std.specs.Prelude.{◌≡◌, ◌≤◌, length};

use crate::Entry;

mod calls;

/// At most `N` entries, in memory of a fixed size.
// kept: an array with a length beside it, since `insert` and `remove` need the free places as well, which an `ArrayVec` does not lend
#[derive(Drop)]
pub struct Table<K, V, const N: usize> {
    /// Room for as many entries as there can be.
    entries: [Entry<K, V>; N],
    /// How many of the entries are in use, the first ones.
    used: usize,
    ghost sized: { length entries ≡ N },
    ghost within: { used ≤ N },
}
