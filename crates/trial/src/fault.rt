//! What can be wrong with a list of epochs.

/// What is wrong with an epoch.
#[derive(Clone, Copy, Debug, PartialEq, Eq)]
pub enum Fault {
    /// It has fewer than two keys.
    FewKeys,
    /// It has more than sixteen keys.
    ManyKeys,
    /// The key at this place is the one before it.
    EqualKeys(usize),
    /// The key at this place is below the one before it.
    UnsortedKeys(usize),
    /// The own signer is not below the number of keys.
    OwnSigner,
    /// It is the epoch before it in the list.
    EpochTwice,
    /// It is below the epoch before it in the list.
    EpochBack,
}

/// The first fault of a list, and the place of the epoch that has it.
#[derive(Clone, Copy, Debug, PartialEq, Eq)]
pub struct ListFault {
    /// The place.
    pub at: usize,
    /// The fault.
    pub fault: Fault,
}
