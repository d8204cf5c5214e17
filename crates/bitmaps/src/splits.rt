//! From a map to its signers.
ghost use Rattle.std.specs.Prelude.{◌≡◌, ◌+◌, ◌<◌, ◌≤◌, [], ◌∷◌, ◌++◌, length};
ghost use Rattle.bitmaps.specs.Maps.{all_below, bit, standing};
ghost use Rattle.bitmaps.specs.Signers.{listed};

use crate::Signers;

/// Whether the bit of `signer` stands.
fn stands(map: u16, signer: u8) -> bool
    requires { signer < 16 }
    ensures { result ≡ bit signer map }
{
    (map >> signer) % 2 == 1
}

/// The signers whose bit stands.
pub fn signers(map: u16) -> Signers
    ensures { listed result ≡ standing map }
{
    let mut signers = Signers::new();
    for signer in 0..16 {
        if stands(map, signer) {
            signers.push(signer);
        }
    }
    signers
}

impl Signers {
    /// No signers.
    fn new() -> Self
        ensures signers { listed result ≡ [] }
        ensures len { result.len ≡ 0 }
    {
        Signers {
            list: [0; 16],
            len: 0,
        }
    }

    /// Adds a signer at the end.
    fn push(&mut self, signer: u8)
        requires { self.old.len < 16 }
        ensures signers { listed self.new ≡ listed self.old ++ signer ∷ [] }
        ensures len { self.new.len ≡ self.old.len + 1 }
    {
        self.list[self.len] = signer;
        self.len += 1;
    }

    /// The signers, in ascending order.
    pub fn as_slice(&self) -> &[u8]
        ensures signers { result.now ≡ listed self.now }
        ensures few { length result.now ≤ 16 }
    {
        &self.list[0..self.len]
    }
}

/// Whether every signer is below `n`.
pub fn all_below(n: usize, signers: &[u8]) -> bool
    ensures { result ≡ all_below n signers.now }
{
    signers.iter().all(|signer| usize::from(*signer) < n)
}
