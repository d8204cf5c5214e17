//! What is read: numbers as values, longer fields as parts of the bytes read.
use types::{Epoch, Height, Participant};

/// A part of the bytes read, and its place in them.
#[derive(Clone, Copy, Debug, PartialEq, Eq)]
pub struct Part<'a> {
    /// The bytes of the part.
    pub bytes: &'a [u8],
    /// The place of its first byte.
    pub at: usize,
}

/// A signer's word, in one epoch, for the digest of a height.
#[derive(Clone, Copy, Debug, PartialEq, Eq)]
pub struct Ack<'a> {
    /// The height that is acked.
    pub height: Height,
    /// The digest of the height: 32 bytes.
    pub digest: Part<'a>,
    /// The epoch in which the signer signs.
    pub epoch: Epoch,
    /// The number of the signer.
    pub signer: Participant,
    /// The signature of the height and its digest: 64 bytes.
    pub signature: Part<'a>,
}

/// A height and its digest, with the certificate that enough signers stand behind them.
#[derive(Clone, Copy, Debug, PartialEq, Eq)]
pub struct Certified<'a> {
    /// The height that is certified.
    pub height: Height,
    /// The digest of the height: 32 bytes.
    pub digest: Part<'a>,
    /// The certificate of the height and its digest: all bytes to the end.
    pub certificate: Part<'a>,
}

/// What a record says.
#[derive(Clone, Copy, Debug, PartialEq, Eq)]
pub enum Activity<'a> {
    /// An ack was made.
    Ack(Ack<'a>),
    /// A height was certified.
    Certified(Certified<'a>),
    /// The tip moved.
    Tip(Height),
}

/// What a message says: the sender's tip, and an ack.
#[derive(Clone, Copy, Debug, PartialEq, Eq)]
pub struct TipAck<'a> {
    /// The sender's tip.
    pub tip: Height,
    /// The ack.
    pub ack: Ack<'a>,
}
