//! The pooled provider: a certificate is the map of its signers and the sum of their tags.
#![tactic(auto)]

ghost use Rattle.pooled.specs.Theorems.{AssembledIsAccepted, Reasons};

mod body;
mod sums;

pub use body::{Pooled, PooledProvider};

/// What a pooled certificate shows: one that is assembled from accepted signatures is accepted, and one that is rejected has its reason.
pub fn certificates_stand()
    ensures accepted { AssembledIsAccepted }
    ensures reasons { Reasons }
{}
