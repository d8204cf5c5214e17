//! Why a line is refused, and what is printed of it.
ghost use Rattle.std.specs.Prelude.{Some};

use fields::Fault;
use std::fmt;

/// Why a line was refused.
#[derive(Clone, Copy, Debug, PartialEq, Eq)]
pub enum Refusal {
    /// A word is wrong, missing, or one too many.
    Words(Fault),
    /// What is to be decoded is neither a record nor a message.
    Decode,
    /// What is to be encoded is none of the forms.
    Encode,
}

impl From<Fault> for Refusal {
    ghost use Rattle.std.specs.Prelude.{◌≡◌};
    ghost use Rattle.console_forms.specs.declared.refusals.Refusal.TheVariants.{Words};

    ghost from_gives = { λ fault refusal. refusal ≡ Words fault };

    fn from(fault: Fault) -> Self {
        Self::Words(fault)
    }
}

// kept: thiserror's derive would write this impl, and promises nothing of what it prints
impl fmt::Display for Refusal {
    ghost use Rattle.console_forms.specs.Printed.{refusal_line};

    ghost output = { λ e. Some (refusal_line e) };

    fn fmt<W: fmt::Write>(&self, f: &mut fmt::Formatter<W>) -> fmt::Result {
        match *self {
            Self::Words(fault) => write!(f, "refused: {fault}"),
            Self::Decode => {
                f.write_str("refused: word 1 after the command is neither record nor message")
            }
            Self::Encode => f.write_str(
                "refused: word 1 after the command is none of tip, ack, certified and message",
            ),
        }
    }
}
