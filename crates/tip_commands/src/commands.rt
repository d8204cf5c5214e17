//! What a line says.
use crate::KeySet;
use types::{Height, Participant};

/// What a line says to the signers' part of the console.
#[derive(Drop)]
pub enum Command {
    /// These are the signers from now on.
    Signers(KeySet),
    /// The signer tells that it has reached the height.
    Tip(Participant, Height),
}
