//! The recorded tips of the signers, and the safe tip among them.
#![tactic(auto)]

mod counts;
mod faults;
mod laws;
mod safe_tip;
mod seats;
mod set_size;

pub use faults::{max_faults, quorum};
pub use laws::{quorum_cases_stand, safe_tip_cases_stand, safe_tip_is_one};
pub use safe_tip::SafeTip;
pub use set_size::SetSize;

/// The most signers that a set has.
pub const MAX_SIGNERS: usize = 16;
