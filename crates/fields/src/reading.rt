//! Words read as numbers and as bytes.
ghost use Rattle.std.specs.Prelude.{◌≡◌, ◌≤◌, length, IfOk, vec_items};
ghost use Rattle.fields.specs.Fields.{number_in, array_in, bytes_in, few_bytes_in};
ghost use Rattle.fields.specs.Results.{result_map, no_memory, OrNoMemory};

use crate::Fault;
use std::alloc::Global;
use text::{hex_array, hex_len, number, read_hex};
use types::Bytes;

/// The number up to `most` that the word at `place` spells.
pub fn number_at(word: &[u8], place: usize, most: u64) -> Result<u64, Fault>
    ensures { result ≡ number_in most place word.now }
{
    match number(word) {
        Some(value) if value <= most => Ok(value),
        _ => Err(Fault::NoNumber { place, most }),
    }
}

/// How many bytes the word at `place` spells.
fn len_at(word: &[u8], place: usize) -> Result<usize, Fault>
    ensures { result ≡ result_map length (bytes_in place word.now) }
{
    hex_len(word).ok_or(Fault::NoHex { place })
}

/// The string of `N` bytes that the word at `place` spells.
pub fn array_at<K, const N: usize>(word: &[u8], place: usize) -> Result<Bytes<K, N>, Fault>
    ensures { result_map (λ string. string.bytes) result ≡ array_in N place word.now }
{
    let bytes = len_at(word, place)?;
    match hex_array(word) {
        Some(array) => Ok(Bytes::new(array)),
        None => Err(Fault::Length {
            place,
            bytes,
            wanted: N,
        }),
    }
}

/// The bytes that the word at `place` spells.
pub fn bytes_at(heap: Global, word: &[u8], place: usize) -> Result<Vec<u8>, Fault>
    ensures { OrNoMemory no_memory (result_map vec_items result) (bytes_in place word.now) }
{
    read_hex(heap, word)?.ok_or(Fault::NoHex { place })
}

/// The bytes, at most `most`, that the word at `place` spells.
pub fn bytes_up_to(heap: Global, word: &[u8], place: usize, most: usize) -> Result<Vec<u8>, Fault>
    ensures { OrNoMemory no_memory (result_map vec_items result) (few_bytes_in most place word.now) }
{
    let bytes = len_at(word, place)?;
    if bytes > most {
        return Err(Fault::Long { place, bytes, most });
    }
    bytes_at(heap, word, place)
}
