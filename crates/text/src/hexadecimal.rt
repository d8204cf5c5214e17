//! Bytes spelled in hex: two digits a byte, and `-` for no bytes.
ghost use Rattle.std.specs.Prelude.{◌≡◌, IfOk, Ok, Some, None, length, vec_items, [], ◌∷◌};
ghost use Rattle.std.specs.Option.{option_map};
ghost use Rattle.std.specs.List.{list_all};
ghost use Rattle.std.specs.Str.{bytes_eq};
ghost use Rattle.std.specs.Char.{is_ascii_hexdigit};
ghost use Rattle.text.specs.Hex.{bytes_of, hex_of, sized, HexReadsBack};

use hex::FromHex;
use std::alloc::{AllocError, Global};
use std::fmt;

/// Whether the word is `-`, which spells no bytes.
fn is_dash(word: &[u8]) -> bool
    ensures { result ≡ bytes_eq word.now (45 ∷ []) }
{
    word == b"-".as_slice()
}

/// The bytes that the word spells: `-` for none, or two digits a byte, in either case; `None` where it spells none, and
/// no memory is asked for then.
pub fn read_hex(heap: Global, word: &[u8]) -> Result<Option<Vec<u8>>, AllocError>
    ensures value { IfOk result (λ o. option_map vec_items o ≡ bytes_of word.now) }
    ensures wrong { bytes_of word.now ≡ None → result ≡ Ok None }
{
    if is_dash(word) {
        return Ok(Some(Vec::new(heap)));
    }
    if hex_len(word).is_none() {
        return Ok(None);
    }
    let mut bytes = vec![in heap; 0u8; word.len() / 2]?;
    let decoded = hex::decode_to_slice(word, bytes.as_mut_slice());
    Ok(decoded.is_ok().then_some(bytes))
}

/// Whether every byte is a hex digit.
fn is_digits(word: &[u8]) -> bool
    ensures { result ≡ list_all is_ascii_hexdigit word.now }
{
    word.iter().all(|byte| byte.is_ascii_hexdigit())
}

/// How many bytes the word spells; `None` where it spells none.
pub fn hex_len(word: &[u8]) -> Option<usize>
    ensures { result ≡ option_map length (bytes_of word.now) }
{
    if is_dash(word) {
        return Some(0);
    }
    (word.len() % 2 == 0 && is_digits(word)).then_some(word.len() / 2)
}

/// The `N` bytes that the word spells; `None` where it spells none, or not so many.
pub fn hex_array<const N: usize>(word: &[u8]) -> Option<[u8; N]>
    ensures { result ≡ sized N (bytes_of word.now) }
{
    if is_dash(word) {
        return (N == 0).then_some([0; N]);
    }
    <[u8; N]>::from_hex(word).ok()
}

/// Bytes that print as hex: lower case, and `-` for none.
#[derive(Clone, Copy)]
pub struct Hex<'a>(pub &'a [u8]);

impl fmt::Display for Hex<'_> {
    ghost output = { λ h. Some (hex_of h.0.now) };

    fn fmt<W: fmt::Write>(&self, f: &mut fmt::Formatter<W>) -> fmt::Result {
        if self.0.is_empty() {
            return f.write_str("-");
        }
        for &byte in self.0 {
            write!(f, "{byte:02x}")?;
        }
        Ok(())
    }
}

/// States that what is printed of bytes is read as those bytes.
pub fn hex_reads_back()
    ensures { HexReadsBack }
{}
