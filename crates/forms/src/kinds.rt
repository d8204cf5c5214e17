//! The kind byte of a record.
ghost use Rattle.std.specs.Prelude.{◌≡◌};
ghost use Rattle.forms.specs.Kinds.{code_of, Decodes, no_kind_fault};

use crate::faults::{Fault, Field};

/// What the body of a record is.
#[derive(Clone, Copy, Debug, PartialEq, Eq)]
pub(crate) enum Kind {
    /// An ack.
    Ack,
    /// A height, its digest and their certificate.
    Certified,
    /// A tip.
    Tip,
}

/// No kind has this byte, or there is no byte.
#[derive(Clone, Copy, Debug, PartialEq, Eq)]
pub(crate) struct NoKind;

impl From<Kind> for u8 {
    ghost from_gives = { λ kind code. code ≡ code_of kind };

    fn from(kind: Kind) -> u8 {
        match kind {
            Kind::Ack => 0,
            Kind::Certified => 1,
            Kind::Tip => 2,
        }
    }
}

impl TryFrom<u8> for Kind {
    type Error = NoKind;

    ghost try_from_gives = { Decodes };

    fn try_from(code: u8) -> Result<Self, NoKind> {
        match code {
            0 => Ok(Kind::Ack),
            1 => Ok(Kind::Certified),
            2 => Ok(Kind::Tip),
            _ => Err(NoKind),
        }
    }
}

impl From<NoKind> for Fault {
    ghost from_gives = { λ _ fault. fault ≡ no_kind_fault };

    fn from(_: NoKind) -> Fault {
        Fault {
            field: Field::Kind,
            at: 0,
        }
    }
}
