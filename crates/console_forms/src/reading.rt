//! What is answered to a line, by its words.
ghost use Rattle.text.specs.Words.{words};
ghost use Rattle.console_forms.specs.Reading.{command, Answers};

use crate::decoding::decode;
use crate::encoding::encode;
use crate::{Answer, Refusal};
use fields::Line;
use std::alloc::Global;

/// What is answered to a line, by its first word and the words after it; `None` where the first word is no command of this part.
pub fn read(heap: Global, name: &[u8], args: &[u8]) -> Option<Result<Answer, Refusal>>
    ensures { Answers result (command name.now (words args.now)) }
{
    if name == b"decode".as_slice() {
        Some(decode(heap, Line::new(args)))
    } else if name == b"encode".as_slice() {
        Some(encode(heap, Line::new(args)))
    } else {
        None
    }
}
