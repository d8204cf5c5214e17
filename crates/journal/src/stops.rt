//! Why an operation of a journal stopped.
ghost use Rattle.std.specs.Prelude.{◌≡◌};
ghost use Rattle.journal.specs.Numbers.{stop_number};

use crate::places::Overrun;

/// Why an operation that changes a journal stopped.
#[derive(Clone, Copy, Debug, PartialEq, Eq, Hash)]
pub enum Stop {
    /// The record is too long, or the medium has no room.
    Full,
    /// The section is below the bound.
    Pruned,
    /// The power went while the operation ran.
    Off,
}

/// Why reading stopped.
#[derive(Clone, Copy, Debug, PartialEq, Eq, Hash)]
pub enum ReadStop {
    /// Reading came to something that is no record and no end.
    Overrun(Overrun),
    /// The medium has no room to pass on what was held back.
    Full,
    /// The power went while the operation ran.
    Off,
}

impl Stop {
    /// The number of the refusal; none where the power went.
    // kept: every refusal has its number, and these two stand in a list that goes on in other crates.
    pub fn number(self) -> Option<u8>
        ensures { result ≡ stop_number self }
    {
        match self {
            Self::Full => Some(27),
            Self::Pruned => Some(28),
            Self::Off => None,
        }
    }
}
