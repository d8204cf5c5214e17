//! Keys, digests and signatures: byte strings of a fixed length.
ghost use Rattle.std.specs.Prelude.{◌≡◌, length};

use crate::kinds::{Digests, PublicKeys, Signatures};
use std::alloc::AllocError;
use std::marker::PhantomData;

/// A string of `N` bytes, which is what `K` says.
#[derive(Debug, PartialEq, Eq, PartialOrd, Ord)]
#[derive_where(Copy)]
pub struct Bytes<K, const N: usize> {
    /// The bytes, in their order.
    pub bytes: [u8; N],
    of: PhantomData<K>,
    ghost sized: { length bytes ≡ N },
}

/// A signer's public key.
pub type PublicKey = Bytes<PublicKeys, 32>;

/// What is signed for a height.
pub type Digest = Bytes<Digests, 32>;

/// A signature of a height and its digest.
pub type Signature = Bytes<Signatures, 64>;

// kept: by hand, since `derive` and `derive_where` (tried) give no `Clone` to a struct with parameters and a ghost field
impl<K, const N: usize> Clone for Bytes<K, N> {
    ghost use Rattle.std.specs.Prelude.{⊤};

    ghost is_clone = { λ s r. r ≡ s };

    ghost is_infallible = { λ _. ⊤ };

    fn clone(&self) -> Result<Self, AllocError> {
        Ok(Bytes {
            bytes: self.bytes,
            of: PhantomData,
        })
    }
}

impl<K, const N: usize> Default for Bytes<K, N> {
    ghost use Rattle.std.specs.Prelude.{replicate};

    ghost is_default = { λ b. b.bytes ≡ replicate N 0 };

    fn default() -> Self {
        Bytes {
            bytes: [0; N],
            of: PhantomData,
        }
    }
}

impl<K, const N: usize> Bytes<K, N> {
    ghost use Rattle.std.specs.Str.{bytes_eq};

    /// The string of these bytes.
    pub const fn new(bytes: [u8; N]) -> Self
        ensures { result.bytes ≡ bytes.entry }
    {
        Bytes {
            bytes,
            of: PhantomData,
        }
    }

    // kept: a public function beside the derived `==`, whose clause speaks of the bytes alone, as proofs cite it
    /// Whether the two are one, byte for byte.
    pub fn same(&self, other: &Self) -> bool
        ensures { result ≡ bytes_eq self.now.bytes other.now.bytes }
    {
        self.bytes == other.bytes
    }
}
