//! A size for each form.

/// How many bytes the record of a tip, of an ack and of a certificate take, and a message.
#[derive(Clone, Copy, Debug, PartialEq, Eq)]
pub struct Sizes {
    /// The record of a tip.
    pub tip: usize,
    /// The record of an ack.
    pub ack: usize,
    /// The record of a certificate.
    pub certified: usize,
    /// A message.
    pub message: usize,
}
