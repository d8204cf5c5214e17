//! A provider whose certificates begin with a map of their signers.
ghost use Rattle.std.specs.Prelude.{◌≡◌};

use std::marker::PhantomData;
use trial::EpochList;

/// Answers over a list of epochs; `B` is what stands behind the map in its certificates.
#[derive(Clone, Copy)]
pub struct MappedProvider<'a, B> {
    /// The epochs.
    pub epochs: EpochList<'a>,
    of: PhantomData<B>,
}

impl<'a, B> MappedProvider<'a, B> {
    /// The provider over these epochs.
    pub fn new(epochs: EpochList<'a>) -> Self
        ensures { result.epochs.sets.now ≡ epochs.entry.sets.now }
    {
        MappedProvider {
            epochs,
            of: PhantomData,
        }
    }
}
