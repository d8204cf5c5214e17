//! What signers sign.
use crate::Height;

/// What a signer signs: a height, and the digest for it.
#[derive(Clone, Copy, Debug, PartialEq, Eq)]
pub struct Item<'a> {
    /// The height.
    pub height: Height,
    /// The digest for the height, of any number of bytes.
    pub digest: &'a [u8],
}
