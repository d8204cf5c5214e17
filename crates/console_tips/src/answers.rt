//! What is answered to a command, and what is printed of it.
ghost use Rattle.std.specs.Prelude.{◌≡◌, Some};

use std::fmt;
use tip_commands::Fault;
use tips::SetSize;
use types::Height;

/// Why a command was refused; nothing changed.
#[derive(Clone, Copy, Debug, PartialEq, Eq)]
pub enum Refusal {
    /// The words of the line are wrong.
    Words(Fault),
    /// The set has not as many signers as the one that sits.
    Size(SetSize),
    /// A tip came before the first set of signers.
    NoSigners,
}

/// What a command did.
#[derive(Clone, Copy, Debug, PartialEq, Eq)]
pub enum Answer {
    /// A set of signers sits now.
    Seated {
        /// How many signers sit.
        signers: usize,
        /// How many of them may be faulty.
        faults: usize,
        /// How many of them are a quorum.
        quorum: usize,
        /// The safe tip.
        tip: Height,
    },
    /// The tip counted.
    Counted {
        /// The tip that it replaced.
        was: Height,
        /// The safe tip.
        tip: Height,
    },
    /// The tip did not count.
    NotCounted {
        /// The safe tip.
        tip: Height,
    },
}

impl From<Fault> for Refusal {
    ghost use Rattle.console_tips.specs.declared.answers.Refusal.TheVariants.{Words};

    ghost from_gives = { λ fault refusal. refusal ≡ Words fault };

    fn from(fault: Fault) -> Self {
        Self::Words(fault)
    }
}

impl From<SetSize> for Refusal {
    ghost use Rattle.console_tips.specs.declared.answers.Refusal.TheVariants.{Size};

    ghost from_gives = { λ size refusal. refusal ≡ Size size };

    fn from(size: SetSize) -> Self {
        Self::Size(size)
    }
}

// kept: thiserror's derive would write this impl, and promises nothing of what it prints
impl fmt::Display for Refusal {
    ghost use Rattle.console_tips.specs.Printed.{refusal_line};

    ghost output = { λ e. Some (refusal_line e) };

    fn fmt<W: fmt::Write>(&self, f: &mut fmt::Formatter<W>) -> fmt::Result {
        match *self {
            Self::Words(fault) => write!(f, "refused: {fault}"),
            Self::Size(SetSize { seats, keys }) => write!(
                f,
                "refused 11 SetSize: the set has {seats} signers, not {keys}"
            ),
            Self::NoSigners => f.write_str(
                "refused: no signers yet, a line \"signers KEY KEY ..\" comes first",
            ),
        }
    }
}

impl fmt::Display for Answer {
    ghost use Rattle.console_tips.specs.Printed.{answer_line};

    ghost output = { λ a. Some (answer_line a) };

    fn fmt<W: fmt::Write>(&self, f: &mut fmt::Formatter<W>) -> fmt::Result {
        match *self {
            Self::Seated {
                signers,
                faults,
                quorum,
                tip,
            } => write!(
                f,
                "signers {signers} faults {faults} quorum {quorum} safe tip {tip}"
            ),
            Self::Counted { was, tip } => write!(f, "counted, was {was}, safe tip {tip}"),
            Self::NotCounted { tip } => write!(f, "not counted, safe tip {tip}"),
        }
    }
}
