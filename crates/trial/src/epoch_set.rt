//! One epoch of a trial.
use types::{Epoch, Participant, PublicKey};

/// The signers of an epoch.
#[derive(Clone, Copy, Debug, PartialEq, Eq)]
pub struct EpochSet<'a> {
    /// The epoch.
    pub epoch: Epoch,
    /// The keys of its signers, in ascending order.
    pub keys: &'a [PublicKey],
    /// The own signer, if there is one.
    pub me: Option<Participant>,
}
