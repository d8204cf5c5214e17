//! What is wrong with a list of epochs.
ghost use Rattle.std.specs.Prelude.{◌≡◌};
ghost use Rattle.trial.specs.Epochs.{epoch_number};
ghost use Rattle.trial.specs.Faults.{checked, epoch_fault, fault_after, list_fault};

use crate::key_faults::check_set;
use crate::{EpochSet, Fault, ListFault};
use types::Epoch;

/// Refuses an epoch that is not above the one before it.
fn check_epoch(before: Option<Epoch>, epoch: Epoch) -> Result<(), Fault>
    ensures { result ≡ checked (epoch_fault (epoch_number before) epoch.0) }
{
    match before {
        Some(before) if before == epoch => Err(Fault::EpochTwice),
        Some(before) if before > epoch => Err(Fault::EpochBack),
        _ => Ok(()),
    }
}

/// Refuses a set that has a fault after the epoch `before`.
fn check_after(before: Option<Epoch>, set: &EpochSet) -> Result<(), Fault>
    ensures { result ≡ checked (fault_after (epoch_number before) set.now) }
{
    check_epoch(before, set.epoch)?;
    check_set(set)
}

/// Refuses a list that has a fault, and answers the first.
pub fn check(sets: &[EpochSet]) -> Result<(), ListFault>
    ensures { result ≡ checked (list_fault sets.now) }
{
    let mut before = None;
    for (i, set) in sets.iter().enumerate() {
        check_after(before, set).map_err(|fault| ListFault { at: i, fault })?;
        before = Some(set.epoch);
    }
    Ok(())
}
