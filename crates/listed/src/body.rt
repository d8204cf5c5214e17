//! What a listed certificate has behind its map.
ghost use Rattle.listed.specs.Keeping.{listing_fits};
ghost use Rattle.listed.specs.Listing.{listing};

use mapped::{Body, MappedProvider};
use provider::{Attestation, Certificate};
use trial::EpochList;
use types::{Epoch, Item, Participant};

/// The signatures of the signers, one after the other, in the order of the map.
#[derive(Clone, Copy, Debug, PartialEq, Eq)]
pub struct Listed;

/// A provider whose certificates list the signatures of their signers.
pub type ListedProvider<'a> = MappedProvider<'a, Listed>;

impl Body for Listed {
    ghost meaning = { listing };

    ghost fitting = { listing_fits };

    fn size(signers: usize) -> usize {
        64 * signers
    }

    fn write(attestations: &[Attestation], certificate: &mut Certificate) {
        for attestation in attestations {
            bitmaps::append(certificate, &attestation.signature.bytes);
        }
    }

    fn is_good(epochs: &EpochList, epoch: Epoch, item: &Item, signers: &[u8], body: &[u8]) -> bool {
        let mut rest = body;
        for signer in signers {
            let (signature, behind) = rest.split_at(64);
            if !epochs.accepts(epoch, Participant::new(u64::from(*signer)), item, signature) {
                return false;
            }
            rest = behind;
        }
        true
    }
}
