//! A signer with its signature, as certificates are assembled from.
use types::{Participant, Signature};

/// A signature and who made it.
#[derive(Clone, Copy, Debug, PartialEq, Eq)]
pub struct Attestation {
    /// Who signed.
    pub signer: Participant,
    /// What it signed with.
    pub signature: Signature,
}
