//! What is written: numbers as values, and byte strings that are lent.
use types::{Digest, Epoch, Height, Participant, Signature};

// kept: four types beside those that are read: one for both would be `Ack<Part<'a>, Part<'a>>` there and `Ack<&'a Digest, &'a Signature>` here
/// An ack to write: a signer's word, in one epoch, for the digest of a height.
#[derive(Clone, Copy, Debug, PartialEq, Eq)]
pub struct NewAck<'a> {
    /// The height that is acked.
    pub height: Height,
    /// The digest of the height.
    pub digest: &'a Digest,
    /// The epoch in which the signer signs.
    pub epoch: Epoch,
    /// The number of the signer.
    pub signer: Participant,
    /// The signature of the height and its digest.
    pub signature: &'a Signature,
}

/// A height and its digest to write, with the certificate that enough signers stand behind them.
#[derive(Clone, Copy, Debug, PartialEq, Eq)]
pub struct NewCertified<'a> {
    /// The height that is certified.
    pub height: Height,
    /// The digest of the height.
    pub digest: &'a Digest,
    /// The certificate of the height and its digest.
    pub certificate: &'a [u8],
}

/// A record to write.
#[derive(Clone, Copy, Debug, PartialEq, Eq)]
pub enum NewActivity<'a> {
    /// An ack was made.
    Ack(NewAck<'a>),
    /// A height was certified.
    Certified(NewCertified<'a>),
    /// The tip moved.
    Tip(Height),
}

/// A message to write: the sender's tip, and an ack.
#[derive(Clone, Copy, Debug, PartialEq, Eq)]
pub struct NewTipAck<'a> {
    /// The sender's tip.
    pub tip: Height,
    /// The ack.
    pub ack: NewAck<'a>,
}
