//! A change of one byte of a medium, and a look at some.
ghost use Rattle.std.specs.Prelude.{◌≡◌, IfOk, length};
ghost use Rattle.std.specs.Option.{option_map};
ghost use Rattle.console_journal.specs.Obeying.{changed, part_of, Copied};

use crate::{Answer, Refusal};
use std::alloc::{AllocError, Global};

/// Changes one byte, if it is there.
pub(crate) fn damage(bytes: &mut [u8], place: u64, byte: u8) -> Result<Answer, Refusal>
    ensures answer { result ≡ (changed place byte bytes.old).0 }
    ensures bytes { bytes.new ≡ (changed place byte bytes.old).1 }
{
    let at = place as usize;
    if at >= bytes.len() {
        return Err(Refusal::PastEnd(bytes.len()));
    }
    let was = bytes[at];
    bytes[at] = byte;
    Ok(Answer::Damaged(was))
}

/// Some of these bytes, if they are there.
fn part(bytes: &[u8], from: u64, count: u64) -> Option<&[u8]>
    ensures { option_map (λ part. part.now) result ≡ part_of from count bytes.now }
{
    bytes.get(from as usize..)?.get(..count as usize)
}

/// A copy of these bytes.
fn copy(heap: Global, bytes: &[u8]) -> Result<Vec<u8>, AllocError>
    ensures { IfOk result (λ copy. copy.items ≡ bytes.now) }
{
    bytes.to_vec(heap)
}

/// Shows some of these bytes, if they are there.
pub(crate) fn show(heap: Global, bytes: &[u8], from: u64, count: u64) -> Result<Answer, Refusal>
    ensures { Copied (length bytes.now) (part_of from count bytes.now) result }
{
    let part = part(bytes, from, count).ok_or(Refusal::PastEnd(bytes.len()))?;
    Ok(Answer::Bytes(copy(heap, part)?))
}
