//! A list of epochs that was found to have no fault.
ghost use Rattle.std.specs.Prelude.{◌≡◌, true};
ghost use Rattle.trial.specs.Faults.{sound as faultless};

use crate::EpochSet;

/// The epochs of a trial, in ascending order.
#[derive(Clone, Copy)]
pub struct EpochList<'a> {
    /// The signers of each epoch.
    pub sets: &'a [EpochSet<'a>],
    ghost sound: { faultless sets.now ≡ true },
}
