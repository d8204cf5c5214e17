//! What can be wrong with the words of a line, and what is printed of it.
ghost use Rattle.std.specs.Prelude.{◌≡◌, Some};

use std::fmt;

/// What is wrong with the words of a line.
#[derive(Clone, Copy, Debug, PartialEq, Eq)]
pub enum Fault {
    /// A word is missing, is one too many, or is not what stands at its place.
    Word(fields::Fault),
    /// A journal has neither bytes nor slots.
    Kind,
    /// A new file has no area.
    NoAreas,
}

impl From<fields::Fault> for Fault {
    ghost use Rattle.journal_commands.specs.declared.faults.Fault.TheVariants.{Word};

    ghost from_gives = { λ word fault. fault ≡ Word word };

    fn from(fault: fields::Fault) -> Self {
        Self::Word(fault)
    }
}

// kept: thiserror's derive would write this impl, and promises nothing of what it prints
impl fmt::Display for Fault {
    ghost use Rattle.journal_commands.specs.Printed.{fault_text};

    ghost output = { λ e. Some (fault_text e) };

    fn fmt<W: fmt::Write>(&self, f: &mut fmt::Formatter<W>) -> fmt::Result {
        match *self {
            Self::Word(fault) => write!(f, "{fault}"),
            Self::Kind => f.write_str("a journal is one of bytes, of slots or in a file"),
            Self::NoAreas => f.write_str("a journal in a file has 1 area or more"),
        }
    }
}
