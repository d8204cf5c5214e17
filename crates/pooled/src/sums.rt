//! Sums of tags, wrapped to 64 bits.
ghost use Rattle.std.specs.Prelude.{◌≡◌, ◌%◌, ◌^◌, map};
ghost use Rattle.provider.specs.Values.{attested};
ghost use Rattle.pooled.specs.Certificates.{carried as carried_by};
ghost use Rattle.pooled.specs.Judging.{tag_sum};

use provider::Attestation;
use types::Item;

/// The sum of the tags that the signatures carry.
pub(crate) fn carried(attestations: &[Attestation]) -> u64
    ensures { result ≡ carried_by (map attested attestations.now) % 2 ^ 64 }
{
    attestations.iter().fold(0, |sum: u64, attestation| {
        sum.wrapping_add(tags::first_word(&attestation.signature.bytes))
    })
}

/// The sum of the signers' tags for the item.
pub(crate) fn tag_sum(signers: &[u8], item: &Item) -> u64
    ensures { result ≡ tag_sum item.now.height.0 item.now.digest.now signers.now % 2 ^ 64 }
{
    signers.iter().fold(
        0,
        |sum: u64, signer| sum.wrapping_add(tags::tag(*signer, item)),
    )
}
