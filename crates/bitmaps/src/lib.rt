//! Signers as a map of sixteen bits, bit i for signer i, and why a certificate over such a map is rejected.
#![tactic(auto)]

ghost use Rattle.bitmaps.specs.Maps.{MapsReturn};

mod joins;
mod rejection;
mod signer_list;
mod splits;

pub use joins::{append, bitmap, place};
pub use rejection::Rejection;
pub use signer_list::Signers;
pub use splits::{all_below, signers};

/// A map gives its signers back.
pub fn maps_return()
    ensures { MapsReturn }
{}
