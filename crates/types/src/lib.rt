//! The numbers and byte strings that every layer names.
#![tactic(auto)]

mod bytes;
mod items;
mod kinds;
mod numbers;

pub use bytes::{Bytes, Digest, PublicKey, Signature};
pub use items::Item;
pub use kinds::{Digests, Epochs, Heights, PublicKeys, Signatures, Signers};
pub use numbers::{Delta, Epoch, EpochDelta, Height, HeightDelta, Number, Participant};
