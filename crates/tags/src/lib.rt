//! The trial tag: what a signer signs an item with, and what is accepted as its signature.
#![tactic(auto)]

ghost use Rattle.std.specs.Prelude.{◌≡◌, drop};
ghost use Rattle.std.specs.Str.{bytes_eq};
ghost use Rattle.tags.specs.Words.{word};
ghost use Rattle.tags.specs.Tags.{tag_of, signature_of, Inverse};

use types::{Item, Signature};

/// The 64-bit number that the first eight bytes spell, the highest byte first; bytes that are missing count as 0.
pub fn first_word(bytes: &[u8]) -> u64
    ensures { result ≡ word bytes.now }
{
    let mut first = [0; 8];
    let len = bytes.len().min(8);
    first[..len].copy_from_slice(&bytes[..len]);
    u64::from_be_bytes(first)
}

/// The 64-bit number that the eight bytes from `at` on spell.
fn word_at(bytes: &[u8], at: usize) -> u64
    ensures { result ≡ word (drop at bytes.now) }
{
    first_word(bytes.get(at..).unwrap_or(&[]))
}

/// The tag of a signer for an item.
pub fn tag(signer: u8, item: &Item) -> u64
    ensures { result ≡ tag_of signer item.now.height.0 item.now.digest.now }
{
    (u64::from(signer) + 1)
        ^ item.height.0.rotate_left(17)
        ^ word_at(item.digest, 0)
        ^ word_at(item.digest, 8)
        ^ word_at(item.digest, 16)
        ^ word_at(item.digest, 24)
}

/// The signature that carries a tag: its eight bytes, the highest first, and then zeros.
pub fn signature(tag: u64) -> Signature
    ensures { result.bytes ≡ signature_of tag }
{
    let mut bytes = [0; 64];
    bytes[0..8].copy_from_slice(&tag.to_be_bytes());
    Signature::new(bytes)
}

/// Whether `signature` is the one that carries the tag of this signer for the item.
pub fn accepted(signer: u8, item: &Item, signature: &[u8]) -> bool
    ensures { result ≡ bytes_eq (signature_of (tag_of signer item.now.height.0 item.now.digest.now)) signature.now }
{
    let expected = crate::signature(tag(signer, item));
    signature == &expected.bytes[..]
}

/// The word of a signature is the tag that it carries.
pub fn word_of_signature_stands()
    ensures { Inverse }
{}
