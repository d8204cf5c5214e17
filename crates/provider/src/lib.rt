//! Who signs, what is accepted, and how a certificate is made: the promise that every provider keeps.
#![tactic(auto)]

ghost use Rattle.std.specs.Prelude.{◌≡◌, map};
ghost use Rattle.provider.specs.Answers.{Answers};
ghost use Rattle.provider.specs.Laws.{Lawful, position_in};
ghost use Rattle.provider.specs.Values.{lent_keys, number, signed, attested, certified, assembled};

mod attestation;
mod certificate;
mod checks;
mod positions;

pub use attestation::Attestation;
pub use certificate::Certificate;
pub use checks::accepts_own;
pub use positions::position;
use types::{Epoch, Item, Participant, PublicKey, Signature};

impl Certificate {
    /// The certificate's bytes.
    pub fn as_bytes(&self) -> &[u8]
        ensures { result.now ≡ certified self.now }
    {
        &self.bytes[0..self.len]
    }
}

/// Answers about the signers of epochs, their signatures and certificates.
pub trait Provider {
    ghost meaning: { Self → Answers };

    // What each provider owes: its answers keep the laws.
    ghost lawful: { (x : Self) → Lawful (meaning x) };

    // The questions that need no signing.

    /// The keys of `epoch` in ascending order, or none where the epoch is unknown.
    fn keys(&self, epoch: Epoch) -> Option<&[PublicKey]>
        ensures { lent_keys result ≡ (meaning self.now).verifying.keys epoch.0 };

    /// The signer that `key` is in `epoch`, if it is one.
    fn position(&self, epoch: Epoch, key: &PublicKey) -> Option<Participant>
        ensures { number result ≡ position_in key.now.bytes ((meaning self.now).verifying.keys epoch.0) };

    /// Whether `signature` is the signer's for the item.
    fn accepts(&self, epoch: Epoch, signer: Participant, item: &Item, signature: &[u8]) -> bool
        ensures { result ≡ (meaning self.now).verifying.accepts epoch.0 signer.0 item.now.height.0 item.now.digest.now signature.now };

    /// Whether `certificate` shows that a quorum of `epoch` signed the item.
    fn valid(&self, epoch: Epoch, item: &Item, certificate: &[u8]) -> bool
        ensures { result ≡ (meaning self.now).verifying.valid epoch.0 item.now.height.0 item.now.digest.now certificate.now };

    // The questions that need signing.

    /// The own signer of `epoch`, if there is one.
    fn me(&self, epoch: Epoch) -> Option<Participant>
        ensures { number result ≡ (meaning self.now).signing.own epoch.0 };

    /// The own signature for the item, where `epoch` has an own signer.
    fn sign(&self, epoch: Epoch, item: &Item) -> Option<Signature>
        ensures { signed result ≡ (meaning self.now).signing.sign epoch.0 item.now.height.0 item.now.digest.now };

    /// The certificate that the signatures make, where they are of n − f or more signers of `epoch` in ascending order.
    fn assemble(&self, epoch: Epoch, attestations: &[Attestation]) -> Option<Certificate>
        ensures { assembled result ≡ (meaning self.now).signing.assemble epoch.0 (map attested attestations.now) };
}
