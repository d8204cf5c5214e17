//! Why a line is refused, and what is printed of it.
ghost use Rattle.std.specs.Prelude.{◌≡◌, Some};

use crate::excerpts::Excerpt;
use console_tips::Refusal;
use std::fmt;
use tip_commands::Fault;

/// Why a line was refused; nothing changed.
#[derive(Clone, Copy, Debug, PartialEq, Eq)]
pub enum Refused<'a> {
    /// The signers' part refuses it.
    Tips(Refusal),
    /// The part for the written forms refuses it.
    Forms(console_forms::Refusal),
    /// The part for providers refuses it.
    Providers(console_provider::Refusal),
    /// The part for journals refuses it.
    Journals(console_journal::Refusal),
    /// No command has this name.
    Unknown(&'a [u8]),
}

impl From<Refusal> for Refused<'_> {
    ghost use Rattle.console.specs.declared.refusals.Refused.TheVariants.{Tips};

    ghost from_gives = { λ refusal refused. refused ≡ Tips refusal };

    fn from(refusal: Refusal) -> Self {
        Self::Tips(refusal)
    }
}

impl From<Fault> for Refused<'_> {
    ghost use Rattle.console.specs.declared.refusals.Refused.TheVariants.{Tips};
    ghost use Rattle.console_tips.specs.declared.answers.Refusal.TheVariants.{Words};

    ghost from_gives = { λ fault refused. refused ≡ Tips (Words fault) };

    fn from(fault: Fault) -> Self {
        Self::Tips(Refusal::Words(fault))
    }
}

impl From<console_forms::Refusal> for Refused<'_> {
    ghost use Rattle.console.specs.declared.refusals.Refused.TheVariants.{Forms};

    ghost from_gives = { λ refusal refused. refused ≡ Forms refusal };

    fn from(refusal: console_forms::Refusal) -> Self {
        Self::Forms(refusal)
    }
}

impl From<console_provider::Refusal> for Refused<'_> {
    ghost use Rattle.console.specs.declared.refusals.Refused.TheVariants.{Providers};

    ghost from_gives = { λ refusal refused. refused ≡ Providers refusal };

    fn from(refusal: console_provider::Refusal) -> Self {
        Self::Providers(refusal)
    }
}

impl From<console_journal::Refusal> for Refused<'_> {
    ghost use Rattle.console.specs.declared.refusals.Refused.TheVariants.{Journals};

    ghost from_gives = { λ refusal refused. refused ≡ Journals refusal };

    fn from(refusal: console_journal::Refusal) -> Self {
        Self::Journals(refusal)
    }
}

// kept: thiserror's derive would write this impl, and promises nothing of what it prints
impl fmt::Display for Refused<'_> {
    ghost use Rattle.console.specs.Printed.{refused_line};

    ghost output = { λ e. Some (refused_line e) };

    fn fmt<W: fmt::Write>(&self, f: &mut fmt::Formatter<W>) -> fmt::Result {
        match *self {
            Self::Tips(refusal) => write!(f, "{refusal}"),
            Self::Forms(refusal) => write!(f, "{refusal}"),
            Self::Providers(refusal) => write!(f, "{refusal}"),
            Self::Journals(refusal) => write!(f, "{refusal}"),
            Self::Unknown(name) => {
                let name = Excerpt(name);
                write!(f, "refused: no command is named {name}, --help lists them")
            }
        }
    }
}
