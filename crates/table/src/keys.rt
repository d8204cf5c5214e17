//! The types of keys that tables are used with, each with its order.
ghost use Rattle.std.proofs.Common.{rules};
ghost use Rattle.table.specs.Keys.{smaller, sooner, earlier};
ghost use Rattle.table.specs.Bytewise.{earlier_total, earlier_derived};

use crate::{Key, OrderedKey};
use types::{Bytes, Height, Number};

/// A height and the time at which it is due: the earlier deadline first, then the lower height.
#[derive(Clone, Copy, Debug, PartialEq, Eq, PartialOrd, Ord)]
pub struct Due {
    /// When it is due.
    pub deadline: u64,
    /// What is due then.
    pub height: Height,
}

impl<K: Copy> Key for Number<K> {
    ghost less = { smaller };

    ghost order = { Prim.search rules };

    fn before(&self, other: &Self) -> bool {
        self.0 < other.0
    }
}

impl<K: Copy + Ord> OrderedKey for Number<K> {
    ghost ordered = { record { order = Prim.search rules; derived = Prim.search rules } };
}

impl Key for Due {
    ghost less = { sooner };

    ghost order = { Prim.search rules };

    fn before(&self, other: &Self) -> bool {
        self.deadline < other.deadline
            || (self.deadline == other.deadline && self.height.0 < other.height.0)
    }
}

impl OrderedKey for Due {
    ghost ordered = { record { order = Prim.search rules; derived = Prim.search rules } };
}

impl<K, const N: usize> Key for Bytes<K, N> {
    ghost less = { earlier };

    ghost order = { earlier_total };

    // kept: a loop over the bytes, since the derived `<` makes an `Option<Ordering>` of each
    fn before(&self, other: &Self) -> bool {
        for i in 0..N {
            if self.bytes[i] != other.bytes[i] {
                return self.bytes[i] < other.bytes[i];
            }
        }
        false
    }
}

impl<K: Copy + Ord, const N: usize> OrderedKey for Bytes<K, N> {
    ghost ordered = { record { order = earlier_total; derived = λ x y. earlier_derived x.bytes y.bytes } };
}
