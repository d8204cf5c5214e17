//! What can be wrong with the words of a line, and what is printed of it.
ghost use Rattle.std.specs.Prelude.{Some};

use std::alloc::AllocFailed;
use std::fmt;

/// What is wrong with the words of a line; places are counted from 1, behind the command.
#[derive(Clone, Copy, Debug, PartialEq, Eq)]
pub enum Fault {
    /// A word is missing, one too many, no number, or not the bytes that stand there; or no memory is left.
    Word(fields::Fault),
    /// The first word names no provider.
    NoKind,
    /// The second word names no own signer.
    NoOwn,
    /// The word is no signer with its signature.
    NoSignature {
        /// The place of the word.
        place: usize,
    },
}

impl From<fields::Fault> for Fault {
    ghost use Rattle.std.specs.Prelude.{◌≡◌};
    ghost use Rattle.provider_commands.specs.declared.faults.Fault.TheVariants.{Word};

    ghost from_gives = { λ fault wrong. wrong ≡ Word fault };

    fn from(fault: fields::Fault) -> Self {
        Self::Word(fault)
    }
}

impl<T: Drop> From<AllocFailed<T>> for Fault {
    ghost use Rattle.std.specs.Prelude.{◌≡◌};
    ghost use Rattle.fields.specs.declared.faults.Fault.TheVariants.{NoMemory};
    ghost use Rattle.provider_commands.specs.declared.faults.Fault.TheVariants.{Word};

    ghost from_gives = { λ _ wrong. wrong ≡ Word NoMemory };

    fn from(_: AllocFailed<T>) -> Self {
        Self::Word(fields::Fault::NoMemory)
    }
}

// kept: thiserror's derive would write this impl, and promises nothing of what it prints
impl fmt::Display for Fault {
    ghost use Rattle.provider_commands.specs.Printed.{fault_text};

    ghost output = { λ e. Some (fault_text e) };

    fn fmt<W: fmt::Write>(&self, f: &mut fmt::Formatter<W>) -> fmt::Result {
        match *self {
            Self::Word(fault) => write!(f, "{fault}"),
            Self::NoKind => f.write_str(
                "word 1 after the command is no provider: listed or pooled",
            ),
            Self::NoOwn => f.write_str(
                "word 2 after the command is no own signer: me= and a number, or me=none",
            ),
            Self::NoSignature { place } => write!(
                f,
                "word {place} after the command is no signature: a signer, a colon and 64 bytes in hex"
            ),
        }
    }
}
