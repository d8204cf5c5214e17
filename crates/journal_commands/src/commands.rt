//! What a line says.

/// An operation on the journal that is open.
#[derive(Drop)]
pub enum Operation {
    /// Adds a record at the end of a section.
    Append {
        /// The section.
        section: u64,
        /// What the record holds.
        bytes: Vec<u8>,
    },
    /// Makes a section durable.
    Sync(u64),
    /// Makes every section durable.
    SyncAll,
    /// Raises the bound to a section, and drops the sections below it.
    Prune(u64),
    /// Reads everything, up to the first overrun.
    Read,
    /// The power is cut between two operations.
    Cut,
}

/// What a line says to the journals' part of the console.
#[derive(Drop)]
pub enum Command {
    /// A new, empty byte journal of so many areas is open from now on.
    NewBytes(u64),
    /// A new, empty slot journal of so many slots is open from now on.
    NewSlots(u64),
    /// The journal that is open does this.
    Operation(Operation),
    /// The power lasts for so many stores, or for ever.
    Power(Option<u64>),
    /// One byte of the medium becomes another.
    Damage {
        /// The place of the byte.
        place: u64,
        /// What it becomes.
        byte: u8,
    },
    /// Some bytes of the medium are shown.
    Show {
        /// The place of the first.
        from: u64,
        /// How many they are.
        count: u64,
    },
}
