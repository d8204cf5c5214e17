//! The listed provider: a certificate is the map of its signers and their signatures.
#![tactic(auto)]

ghost use Rattle.listed.specs.Theorems.{AssembledIsAccepted, DeterminesSigners, DeterminesSignatures, Reasons};

mod body;

pub use body::{Listed, ListedProvider};

/// What a listed certificate shows: one that is assembled from accepted signatures is accepted, it determines its signers and their
/// signatures, and one that is rejected has its reason.
pub fn certificates_stand()
    ensures accepted { AssembledIsAccepted }
    ensures signers { DeterminesSigners }
    ensures signatures { DeterminesSignatures }
    ensures reasons { Reasons }
{}
