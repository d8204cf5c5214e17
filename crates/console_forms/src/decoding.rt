//! The lines that give bytes.
ghost use Rattle.std.specs.Prelude.{vec_items};
ghost use Rattle.fields.specs.Results.{result_map, no_memory, OrNoMemory};
ghost use Rattle.console_forms.specs.Reading.{bytes_alone, decode as decoded, said, out_of_memory};

use crate::{Answer, Refusal};
use fields::{Fault, Line};
use std::alloc::Global;

/// The bytes that the one word left spells.
fn bytes_alone(heap: Global, mut line: Line<'_>) -> Result<Vec<u8>, Fault>
    ensures { OrNoMemory no_memory (result_map vec_items result) (bytes_alone line.entry) }
{
    let bytes = line.bytes(heap)?;
    line.end()?;
    Ok(bytes)
}

/// What is answered to `decode`, by the words behind it.
pub(crate) fn decode(heap: Global, mut line: Line<'_>) -> Result<Answer, Refusal>
    ensures { OrNoMemory out_of_memory (result_map said result) (decoded line.entry) }
{
    let form = line.word()?;
    if form == b"record".as_slice() {
        Ok(Answer::Record(bytes_alone(heap, line)?))
    } else if form == b"message".as_slice() {
        Ok(Answer::Message(bytes_alone(heap, line)?))
    } else {
        Err(Refusal::Decode)
    }
}
