//! What can be wrong with the words of a line, and what is printed of it.
ghost use Rattle.std.specs.Prelude.{Some};

use std::fmt;
use types::Participant;

/// What is wrong with the words of a line.
#[derive(Clone, Copy, Debug, PartialEq, Eq)]
pub enum Fault {
    /// The word at this place after the command is no number of 64 bits.
    NoNumber(usize),
    /// A set has 2 to 16 signers, and not so many.
    KeyCount(usize),
    /// The key stands twice in the set.
    KeyTwice(Participant),
    /// A tip takes two words, a key and a height, and not so many.
    TipWords(usize),
}

// kept: thiserror's derive would write this impl, and promises nothing of what it prints
impl fmt::Display for Fault {
    ghost use Rattle.tip_commands.specs.Printed.{fault_text};

    ghost output = { λ e. Some (fault_text e) };

    fn fmt<W: fmt::Write>(&self, f: &mut fmt::Formatter<W>) -> fmt::Result {
        match *self {
            Self::NoNumber(place) => write!(
                f,
                "word {place} after the command is no number from 0 to 18446744073709551615"
            ),
            Self::KeyCount(keys) => write!(f, "a set has 2 to 16 signers, not {keys}"),
            Self::KeyTwice(key) => write!(f, "the key {key} stands twice"),
            Self::TipWords(words) => write!(
                f,
                "a tip takes a key and a height, 2 words and not {words}"
            ),
        }
    }
}
