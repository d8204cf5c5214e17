//! Numbers of 64 bits that count things of one kind, and distances between them.
ghost use Rattle.std.specs.Prelude.{◌≡◌, ◌+◌, ◌-◌, ◌^◌, ◌<◌, ◌≤◌, min, ◌==◌, Some, decimal};
ghost use Rattle.std.specs.Option.{SomeIff};
ghost use Rattle.types.specs.Numbers.{number, delta};

use crate::kinds::{Epochs, Heights, Signers};
use std::fmt;
use std::marker::PhantomData;

/// A number that counts things of the kind `K`.
#[derive(Clone, Copy, Debug, PartialEq, Eq, PartialOrd, Ord)]
pub struct Number<K>(pub u64, PhantomData<K>);

/// A distance between two numbers that count things of the kind `K`.
#[derive(Clone, Copy, Debug, PartialEq, Eq, PartialOrd, Ord)]
pub struct Delta<K>(pub u64, PhantomData<K>);

/// The number of an item in the record.
pub type Height = Number<Heights>;

/// A distance between two heights.
pub type HeightDelta = Delta<Heights>;

/// The number of a set of signers.
pub type Epoch = Number<Epochs>;

/// A distance between two epochs.
pub type EpochDelta = Delta<Epochs>;

/// The number of a signer: its position in the set of its epoch, or the number that a display gives it.
pub type Participant = Number<Signers>;

impl<K> Delta<K> {
    /// The distance of this number.
    pub const fn new(value: u64) -> Self
        ensures { result ≡ delta value }
    {
        Delta(value, PhantomData)
    }
}

impl<K> Number<K> {
    /// The first one.
    pub const fn zero() -> Self
        ensures { result ≡ number 0 }
    {
        Number(0, PhantomData)
    }

    /// The one of this value.
    pub const fn new(value: u64) -> Self
        ensures { result ≡ number value }
    {
        Number(value, PhantomData)
    }

    /// The value.
    pub const fn get(self) -> u64
        ensures { result ≡ self.0 }
    {
        self.0
    }

    /// Whether this is the first one.
    pub const fn is_zero(self) -> bool
        ensures { result ≡ (self.0 == 0) }
    {
        self.get() == 0
    }

    /// The one after this; `None` after the last of 64 bits.
    pub fn next(self) -> Option<Self>
        ensures { SomeIff result (self.0 + 1 < 2 ^ 64) (number (self.0 + 1)) }
    {
        Some(Self::new(self.0.checked_add(1)?))
    }

    /// The one before this; `None` before the first.
    pub fn previous(self) -> Option<Self>
        ensures { SomeIff result (1 ≤ self.0) (number (self.0 - 1)) }
    {
        self.checked_sub(Delta::new(1))
    }

    /// `delta` further on, stopping at the last of 64 bits.
    pub const fn saturating_add(self, delta: Delta<K>) -> Self
        ensures { result ≡ number (min (self.0 + delta.0) (2 ^ 64 - 1)) }
    {
        Self::new(self.0.saturating_add(delta.0))
    }

    /// `delta` further back; `None` where that would pass 0.
    pub fn checked_sub(self, delta: Delta<K>) -> Option<Self>
        ensures { SomeIff result (delta.0 ≤ self.0) (number (self.0 - delta.0)) }
    {
        Some(Self::new(self.0.checked_sub(delta.0)?))
    }

    /// `delta` further back, stopping at 0.
    pub const fn saturating_sub(self, delta: Delta<K>) -> Self
        ensures { result ≡ number (self.0 - delta.0) }
    {
        Self::new(self.0.saturating_sub(delta.0))
    }

    /// How far this is above `other`; `None` where it is below.
    pub fn delta_from(self, other: Self) -> Option<Delta<K>>
        ensures { SomeIff result (other.0 ≤ self.0) (delta (self.0 - other.0)) }
    {
        Some(Delta::new(self.0.checked_sub(other.0)?))
    }
}

impl<K> Default for Number<K> {
    ghost is_default = { λ n. n ≡ number 0 };

    fn default() -> Self {
        Self::zero()
    }
}

impl<K> fmt::Display for Number<K> {
    ghost output = { λ n. Some (decimal n.0) };

    fn fmt<W: fmt::Write>(&self, f: &mut fmt::Formatter<W>) -> fmt::Result {
        write!(f, "{}", self.0)
    }
}
