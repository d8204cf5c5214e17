//! What a pooled certificate has behind its map.
ghost use Rattle.pooled.specs.Keeping.{pooling_fits};
ghost use Rattle.pooled.specs.Pooling.{pooling};

use crate::sums::{carried, tag_sum};
use mapped::{Body, MappedProvider};
use provider::{Attestation, Certificate};
use trial::EpochList;
use types::{Epoch, Item};

/// The sum of the tags of the signers, in eight bytes.
#[derive(Clone, Copy, Debug, PartialEq, Eq)]
pub struct Pooled;

/// A provider whose certificates hold the sum of the tags of their signers.
pub type PooledProvider<'a> = MappedProvider<'a, Pooled>;

impl Body for Pooled {
    ghost meaning = { pooling };

    ghost fitting = { pooling_fits };

    fn size(_signers: usize) -> usize {
        8
    }

    fn write(attestations: &[Attestation], certificate: &mut Certificate) {
        bitmaps::append(certificate, &carried(attestations).to_be_bytes());
    }

    fn is_good(
        _epochs: &EpochList,
        _epoch: Epoch,
        item: &Item,
        signers: &[u8],
        body: &[u8],
    ) -> bool {
        body == &tag_sum(signers, item).to_be_bytes()[..]
    }
}
