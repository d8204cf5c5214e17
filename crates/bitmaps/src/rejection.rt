//! Why a certificate is rejected.

/// The first reason against a certificate, in this order.
#[derive(Clone, Copy, Debug, PartialEq, Eq)]
pub enum Rejection {
    /// The epoch is unknown.
    UnknownEpoch,
    /// There is no whole map.
    NoMap,
    /// A bit stands that is no signer's: it is n or above.
    SignerOutside,
    /// Fewer than n − f bits stand.
    TooFew,
    /// What follows the map is not as long as the signers that stand ask for.
    WrongLength,
    /// A signature is not accepted, or the sum is not that of the tags.
    BadSignature,
}
