//! The first bytes of a word, as they can be printed.
ghost use Rattle.std.specs.Prelude.{◌≡◌, take, Some};

use std::fmt;
use text::Hex;

/// At most the first 32 bytes of a word.
fn beginning(word: &[u8]) -> &[u8]
    ensures { result.now ≡ take 32 word.now }
{
    if word.len() > 32 { &word[..32] } else { word }
}

/// A byte as it can be printed: itself where it is a printing ASCII character, else `\x` and its two hex digits.
#[derive(Clone, Copy)]
struct Shown(u8);

/// At most the first 32 bytes of a word, as they can be printed, and `..` where there are more.
#[derive(Clone, Copy)]
pub(crate) struct Excerpt<'a>(pub(crate) &'a [u8]);

impl fmt::Display for Shown {
    ghost use Rattle.console.specs.Printed.{shown};

    ghost output = { λ s. Some (shown s.0) };

    fn fmt<W: fmt::Write>(&self, f: &mut fmt::Formatter<W>) -> fmt::Result {
        if self.0.is_ascii_graphic() {
            f.write_char(char::from(self.0))
        } else {
            let digits = [self.0];
            write!(f, "\\x{}", Hex(&digits))
        }
    }
}

impl fmt::Display for Excerpt<'_> {
    ghost use Rattle.console.specs.Printed.{excerpt};

    ghost output = { λ e. Some (excerpt e.0.now) };

    fn fmt<W: fmt::Write>(&self, f: &mut fmt::Formatter<W>) -> fmt::Result {
        let bytes = beginning(self.0);
        for &byte in bytes {
            write!(f, "{}", Shown(byte))?;
        }
        if self.0.len() > 32 {
            f.write_str("..")?;
        }
        Ok(())
    }
}
