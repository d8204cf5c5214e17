//! What is answered to a command.
ghost use Rattle.std.specs.Prelude.{◌≡◌};

use bitmaps::Rejection;
use provider_commands::{Fault, Kind};
use std::alloc::{AllocError, AllocFailed};
use trial::ListFault;
use types::{Epoch, Participant, Signature};

/// Why a command was refused; nothing changed.
#[derive(Clone, Copy, Debug, PartialEq, Eq)]
pub enum Refusal {
    /// The words of the line are wrong, or no memory is left.
    Words(Fault),
    /// The signers of an epoch are not what a provider takes.
    Signers(trial::Fault),
    /// The epoch is unknown.
    UnknownEpoch(Epoch),
    /// The epoch has no own signer.
    NoOwnSigner(Epoch),
    /// The signatures make no certificate.
    AssemblyFailed,
}

/// What a command did.
#[derive(Drop)]
pub enum Answer {
    /// This provider answers from now on, of no epochs yet.
    Chosen(Kind),
    /// An epoch is known now.
    Known {
        /// The epoch.
        epoch: Epoch,
        /// How many signers it has.
        signers: usize,
        /// How many of them may be faulty.
        faults: usize,
        /// How many of them are a quorum.
        quorum: usize,
        /// The own signer, if there is one.
        own: Option<Participant>,
    },
    /// The own signature.
    Signed(Signature),
    /// The signature, or the certificate, is accepted.
    Accepted,
    /// The signature is not accepted.
    Rejected,
    /// The bytes of the certificate that the signatures make.
    Assembled(Vec<u8>),
    /// The certificate is not accepted, for this reason.
    Against(Rejection),
}

impl From<Fault> for Refusal {
    ghost use Rattle.console_provider.specs.declared.answers.Refusal.TheVariants.{Words};

    ghost from_gives = { λ fault refusal. refusal ≡ Words fault };

    fn from(fault: Fault) -> Self {
        Self::Words(fault)
    }
}

impl From<ListFault> for Refusal {
    ghost use Rattle.console_provider.specs.declared.answers.Refusal.TheVariants.{Signers};

    ghost from_gives = { λ fault refusal. refusal ≡ Signers fault.fault };

    fn from(fault: ListFault) -> Self {
        Self::Signers(fault.fault)
    }
}

impl From<AllocError> for Refusal {
    ghost use Rattle.fields.specs.declared.faults.Fault.TheVariants.{NoMemory};
    ghost use Rattle.provider_commands.specs.declared.faults.Fault.TheVariants.{Word};
    ghost use Rattle.console_provider.specs.declared.answers.Refusal.TheVariants.{Words};

    ghost from_gives = { λ _ refusal. refusal ≡ Words (Word NoMemory) };

    fn from(_: AllocError) -> Self {
        Self::Words(Fault::Word(fields::Fault::NoMemory))
    }
}

impl<T: Drop> From<AllocFailed<T>> for Refusal {
    ghost use Rattle.fields.specs.declared.faults.Fault.TheVariants.{NoMemory};
    ghost use Rattle.provider_commands.specs.declared.faults.Fault.TheVariants.{Word};
    ghost use Rattle.console_provider.specs.declared.answers.Refusal.TheVariants.{Words};

    ghost from_gives = { λ _ refusal. refusal ≡ Words (Word NoMemory) };

    fn from(_: AllocFailed<T>) -> Self {
        Self::Words(Fault::Word(fields::Fault::NoMemory))
    }
}
