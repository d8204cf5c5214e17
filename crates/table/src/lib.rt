//! An ordered table in memory that the caller lends at each call: entries in ascending order of their keys.
#![tactic(auto)]

ghost use Rattle.std.specs.Prelude.{◌≡◌, Bool};
ghost use Rattle.table.specs.Order.{Total, Ordered};

mod keys;
mod lookups;
mod tables;
mod updates;

pub use keys::Due;
pub use lookups::{first, last, lookup, position};
pub use tables::Table;
pub use updates::{insert, remove};

/// A type of keys with a total order.
pub trait Key: Copy {
    ghost less: { Self → Self → Bool };

    /// Whether this key comes before `other`.
    fn before(&self, other: &Self) -> bool
        ensures { result ≡ less self.now other.now };

    ghost order: { Total less };
}

/// A type of keys whose `<` is their order as keys.
pub trait OrderedKey: Key + Ord {
    ghost ordered: { Ordered Self.partial_cmp Self.less };
}

/// A key with its value.
#[derive(Clone, Copy, Debug, Default, PartialEq, Eq)]
pub struct Entry<K, V> {
    /// What the entry is found by.
    pub key: K,
    /// What is kept at the key.
    pub value: V,
}

/// There is no place for one entry more; nothing changed.
#[derive(Clone, Copy, Debug, PartialEq, Eq)]
pub struct Full;
