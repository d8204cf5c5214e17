//! A journal of records in sections: what it promises, and what follows from the promise.
#![tactic(auto)]

ghost use Rattle.std.specs.Prelude.{◌≡◌, Option};
ghost use Rattle.std.specs.Option.{option_map};
ghost use Rattle.journal.specs.Log.{Formed, reading};
ghost use Rattle.journal.specs.Cuts.{Cut};
ghost use Rattle.journal.specs.Steps.{Disk, Appended, Synced, AllSynced, Pruning, Reading, Steady, Clean};
ghost use Rattle.journal.specs.Places.{placed, beyond, first_of};
ghost use Rattle.journal.specs.declared.places.Overrun.{Overrun};

mod laws;
mod places;
mod stops;

pub use laws::{durable_stays, read_twice, records_whole};
pub use places::{Defect, MAX_RECORD, Overrun, Place, Record};
pub use stops::{ReadStop, Stop};

/// Anything that keeps this meaning: a bound, and per section, oldest first, records of at most 1,068 bytes,
/// durable or not yet.
pub trait Journal {
    // what is recorded, what of it is durable, and what still fits
    ghost disk: { Self → Disk };

    // the first place, in reading order, at which the medium reads as no record and no end
    ghost overrun: { Self → Option Overrun };

    /// Adds a record at the end of a section.
    fn append(&mut self, section: u64, bytes: &[u8]) -> Result<(), Stop>
        ensures step { Appended (disk self.old) section bytes.now result (disk self.new) }
        ensures overruns { Steady result (overrun self.old) (overrun self.new) };

    /// Makes a section durable.
    fn sync(&mut self, section: u64) -> Result<(), Stop>
        ensures step { Synced (disk self.old) section result (disk self.new) }
        ensures overruns { Steady result (overrun self.old) (overrun self.new) };

    /// Makes every section durable.
    fn sync_all(&mut self) -> Result<(), Stop>
        ensures step { AllSynced (disk self.old) result (disk self.new) }
        ensures overruns { Steady result (overrun self.old) (overrun self.new) };

    /// Raises the bound to a section, and drops the sections below it.
    fn prune(&mut self, section: u64) -> Result<(), Stop>
        ensures step { Pruning (disk self.old) section result (disk self.new) }
        ensures overruns { Clean (overrun self.old) (overrun self.new) };

    /// Reads everything, up to the first overrun, and makes durable what it reads.
    fn read(&mut self) -> Result<(), ReadStop>
        ensures step { Reading (disk self.old) (overrun self.old) result (disk self.new) (overrun self.new) }
        ensures formed { Formed (disk self.new).log };

    /// The first record past a place in reading order, or the very first.
    fn next(&self, after: Option<Place>) -> Option<Record<'_>>
        ensures first { option_map placed result ≡ first_of (beyond after (reading (disk self.now).log.sections)) }
        ensures formed { Formed (disk self.now).log };

    /// The power is cut between two operations.
    fn cut(&mut self)
        ensures step { Cut 0 (disk self.old).log (disk self.new).log }
        ensures overruns { Clean (overrun self.old) (overrun self.new) };
}
