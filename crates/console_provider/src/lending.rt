//! The signers of the epochs, as a provider's list takes them.
ghost use Rattle.std.specs.Prelude.{◌≡◌, ◌∷◌, [], ◌++◌, map, IfOk, None};
ghost use Rattle.fields.specs.Results.{OrNoMemory};
ghost use Rattle.provider_commands.specs.Sets.{given, shown};
ghost use Rattle.trial.specs.Faults.{list_fault};
ghost use Rattle.console_provider.specs.Doing.{out_of_memory};
ghost use Rattle.console_provider.specs.Lending.{lent, passed};

use crate::Refusal;
use provider_commands::SignerSet;
use std::alloc::{AllocError, Global};
use trial::{EpochList, EpochSet};

/// The signers of an epoch, with their keys lent.
fn lend(set: &SignerSet) -> EpochSet<'_>
    ensures { shown result ≡ given set.now }
{
    EpochSet {
        epoch: set.epoch,
        keys: &set.keys,
        me: set.me,
    }
}

/// The signers of all epochs, with their keys lent.
pub(crate) fn lend_all(heap: Global, sets: &[SignerSet]) -> Result<Vec<EpochSet<'_>>, AllocError>
    ensures { IfOk result (λ lent. map shown lent.items ≡ map given sets.now) }
{
    let mut lent = Vec::with_capacity(heap, sets.len())?;
    for set in sets {
        lent.push(lend(set))?;
    }
    Ok(lent)
}

/// Refuses signers that a provider's list would not take behind the others.
pub(crate) fn check_added(
    heap: Global,
    sets: &[SignerSet],
    added: &SignerSet,
) -> Result<(), Refusal>
    ensures { OrNoMemory out_of_memory result (passed (list_fault (map lent (sets.now ++ added.now ∷ [])))) }
{
    let mut sets = lend_all(heap, sets)?;
    sets.push(lend(added))?;
    trial::check(&sets)?;
    Ok(())
}

/// The list of the epochs that have these signers.
pub(crate) fn list<'a>(sets: &'a [EpochSet<'a>]) -> EpochList<'a>
    requires { list_fault sets.now ≡ None }
    ensures { result.sets.now ≡ sets.now }
{
    let mut epochs = EpochList::new();
    let _ = epochs.lend(sets);
    epochs
}
