//! What a line says.
use provider::Attestation;
use types::{Digest, Epoch, Height, Participant, PublicKey};

/// The providers that there are.
#[derive(Clone, Copy, Debug, PartialEq, Eq)]
pub enum Kind {
    /// Its certificates list the signatures.
    Listed,
    /// Its certificates hold the sum of the tags.
    Pooled,
}

/// The signers of an epoch, with keys of their own.
#[derive(Drop)]
pub struct SignerSet {
    /// The epoch.
    pub epoch: Epoch,
    /// The own signer, if there is one.
    pub me: Option<Participant>,
    /// The keys of the signers.
    pub keys: Vec<PublicKey>,
}

/// What is asked about an epoch.
#[derive(Drop)]
pub enum Question {
    /// The own signature for a height and its digest.
    Sign {
        /// The height.
        height: Height,
        /// Its digest.
        digest: Digest,
    },
    /// Whether a signature is accepted.
    Accepts {
        /// Who is said to have signed.
        signer: Participant,
        /// The height.
        height: Height,
        /// Its digest.
        digest: Digest,
        /// The signature, of any number of bytes.
        signature: Vec<u8>,
    },
    /// The certificate that signatures make.
    Assemble(Vec<Attestation>),
    /// Whether a certificate is accepted.
    AcceptsCertificate {
        /// The height.
        height: Height,
        /// Its digest.
        digest: Digest,
        /// The certificate, of any number of bytes.
        certificate: Vec<u8>,
    },
}

/// What a line says to the providers' part of the console.
#[derive(Drop)]
pub enum Command {
    /// This provider answers from now on, of no epochs yet.
    Provider(Kind),
    /// These are the signers of an epoch.
    EpochSet(SignerSet),
    /// A question about an epoch.
    Ask(Epoch, Question),
}
