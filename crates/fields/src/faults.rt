//! What can be wrong with a word, and what is printed of it.
ghost use Rattle.std.specs.Prelude.{Some};

use std::alloc::AllocError;
use std::fmt;

/// Why a word was not taken; places are counted from 1, behind the command.
#[derive(Clone, Copy, Debug, PartialEq, Eq)]
pub enum Fault {
    /// The line ends where a word stands.
    Missing {
        /// The place of the word.
        place: usize,
    },
    /// A word stands where the line ends.
    TooMany {
        /// The place of the word.
        place: usize,
    },
    /// The word is no number, or one that is too large.
    NoNumber {
        /// The place of the word.
        place: usize,
        /// The largest number that stands there.
        most: u64,
    },
    /// The word spells no bytes.
    NoHex {
        /// The place of the word.
        place: usize,
    },
    /// The word spells another number of bytes than stand there.
    Length {
        /// The place of the word.
        place: usize,
        /// How many bytes it spells.
        bytes: usize,
        /// How many stand there.
        wanted: usize,
    },
    /// The word spells more bytes than may stand there.
    Long {
        /// The place of the word.
        place: usize,
        /// How many bytes it spells.
        bytes: usize,
        /// How many may stand there.
        most: usize,
    },
    /// The heap has no memory for the bytes.
    NoMemory,
}

impl From<AllocError> for Fault {
    ghost use Rattle.std.specs.Prelude.{◌≡◌};
    ghost use Rattle.fields.specs.declared.faults.Fault.TheVariants.{NoMemory};

    ghost from_gives = { λ _ fault. fault ≡ NoMemory };

    fn from(_: AllocError) -> Self {
        Self::NoMemory
    }
}

// kept: thiserror's derive would write this impl, and promises nothing of what it prints
impl fmt::Display for Fault {
    ghost use Rattle.fields.specs.Printed.{fault_text};

    ghost output = { λ e. Some (fault_text e) };

    fn fmt<W: fmt::Write>(&self, f: &mut fmt::Formatter<W>) -> fmt::Result {
        match *self {
            Self::Missing { place } => write!(f, "word {place} after the command is missing"),
            Self::TooMany { place } => {
                write!(f, "word {place} after the command is one too many")
            }
            Self::NoNumber { place, most } => write!(
                f,
                "word {place} after the command is no number from 0 to {most}"
            ),
            Self::NoHex { place } => write!(
                f,
                "word {place} after the command is no hex: two digits a byte, or - for no bytes"
            ),
            Self::Length {
                place,
                bytes,
                wanted,
            } => write!(
                f,
                "word {place} after the command has {bytes} bytes, not {wanted}"
            ),
            Self::Long { place, bytes, most } => write!(
                f,
                "word {place} after the command has {bytes} bytes, {most} at most"
            ),
            Self::NoMemory => f.write_str("no memory is left"),
        }
    }
}
