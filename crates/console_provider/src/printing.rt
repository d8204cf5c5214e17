//! What is printed of an answer and of a refusal.
ghost use Rattle.std.specs.Prelude.{Some};

use crate::{Answer, Refusal};
use bitmaps::Rejection;
use provider_commands::Kind;
use std::fmt;
use text::Hex;

/// A reason against a certificate, in words.
#[derive(Clone, Copy)]
struct Reason(Rejection);

impl fmt::Display for Reason {
    ghost use Rattle.console_provider.specs.Printed.{reason_text};

    ghost output = { λ r. Some (reason_text r.0) };

    fn fmt<W: fmt::Write>(&self, f: &mut fmt::Formatter<W>) -> fmt::Result {
        f.write_str(match self.0 {
            Rejection::UnknownEpoch => "an unknown epoch",
            Rejection::NoMap => "no map",
            Rejection::SignerOutside => "a bit that is no signer's",
            Rejection::TooFew => "too few signers",
            Rejection::WrongLength => "a wrong length",
            Rejection::BadSignature => "a bad signature",
        })
    }
}

/// What is wrong with the signers of an epoch, in words.
#[derive(Clone, Copy)]
struct Wrong(trial::Fault);

impl fmt::Display for Wrong {
    ghost use Rattle.console_provider.specs.Printed.{signers_text};

    ghost output = { λ w. Some (signers_text w.0) };

    fn fmt<W: fmt::Write>(&self, f: &mut fmt::Formatter<W>) -> fmt::Result {
        match self.0 {
            trial::Fault::FewKeys => f.write_str("an epoch has 2 keys or more"),
            trial::Fault::ManyKeys => f.write_str("an epoch has 16 keys at most"),
            trial::Fault::EqualKeys(signer) => {
                write!(f, "the key of signer {signer} is the one before it")
            }
            trial::Fault::UnsortedKeys(signer) => {
                write!(f, "the key of signer {signer} is below the one before it")
            }
            trial::Fault::OwnSigner => f.write_str("the own signer is none of the epoch's"),
            trial::Fault::EpochTwice => f.write_str("the epoch is the one before it"),
            trial::Fault::EpochBack => f.write_str("the epoch is below the one before it"),
        }
    }
}

// kept: thiserror's derive would write this impl, and promises nothing of what it prints
impl fmt::Display for Refusal {
    ghost use Rattle.console_provider.specs.Printed.{refusal_line};

    ghost output = { λ e. Some (refusal_line e) };

    fn fmt<W: fmt::Write>(&self, f: &mut fmt::Formatter<W>) -> fmt::Result {
        match *self {
            Self::Words(fault) => write!(f, "refused: {fault}"),
            Self::Signers(fault) => {
                let wrong = Wrong(fault);
                write!(f, "refused: {wrong}")
            }
            Self::UnknownEpoch(epoch) => write!(f, "refused 5 UnknownEpoch: {epoch}"),
            Self::NoOwnSigner(epoch) => write!(f, "refused: epoch {epoch} has no own signer"),
            Self::AssemblyFailed => f.write_str("refused 29 AssemblyFailed"),
        }
    }
}

impl fmt::Display for Answer {
    ghost use Rattle.console_provider.specs.Printed.{answer_line};

    ghost output = { λ a. Some (answer_line a) };

    fn fmt<W: fmt::Write>(&self, f: &mut fmt::Formatter<W>) -> fmt::Result {
        match *self {
            Self::Chosen(Kind::Listed) => f.write_str("provider listed"),
            Self::Chosen(Kind::Pooled) => f.write_str("provider pooled"),
            Self::Known {
                epoch,
                signers,
                faults,
                quorum,
                own,
            } => {
                write!(
                    f,
                    "epoch {epoch} signers {signers} faults {faults} quorum {quorum} own "
                )?;
                match own {
                    Some(own) => write!(f, "{own}"),
                    None => f.write_str("none"),
                }
            }
            Self::Signed(signature) => {
                let hex = Hex(&signature.bytes);
                write!(f, "signature {hex}")
            }
            Self::Accepted => f.write_str("accepted"),
            Self::Rejected => f.write_str("rejected"),
            Self::Assembled(ref certificate) => {
                let hex = Hex(certificate);
                write!(f, "certificate {hex}")
            }
            Self::Against(rejection) => {
                let reason = Reason(rejection);
                write!(f, "rejected: {reason}")
            }
        }
    }
}
