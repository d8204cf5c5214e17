//! A journal that keeps each record in one slot of a lent list.
#![tactic(auto)]

ghost use Rattle.std.specs.Prelude.{◌≡◌, is_ok, None};
ghost use Rattle.journal.specs.Cuts.{Cut};
ghost use Rattle.journal.specs.Laws.{Told};
ghost use Rattle.journal.specs.Log.{Formed};
ghost use Rattle.journal.specs.Steps.{Appended, Synced, AllSynced, Pruning, Reading, Steady, Clean};
ghost use Rattle.power.specs.Power.{Powered};
ghost use Rattle.slots.specs.Stores.{unders, Storing, Sweeping};
ghost use Rattle.slots.specs.Value.{slots_of, name_of, power_of, bound_of, disk_of, overrun_of};

use crate::reading::{first_overrun, next_record};
use journal::{Journal, MAX_RECORD, Overrun, Place, ReadStop, Record, Stop};

mod entries;
mod reading;
mod search;
mod slot;
mod stores;

pub use slot::Slot;

/// A journal over lent slots. Each record is one store, and so is each record that prune frees.
// kept: no struct of its own for the slots and the power: of a loan within a field's field a caller learns nothing when it ends
#[derive(Drop)]
pub struct SlotJournal<'a> {
    // where the records lie
    slots: &'a mut [Slot],
    // how many stores the power still lasts, or no limit
    power: Option<u64>,
    // no record is added to a section below it
    bound: u64,
}

impl SlotJournal<'_> {
    /// The journal in `slots`, whatever they hold, with no bound and with power for ever.
    pub fn new<'a>(slots: &'a mut [Slot]) -> SlotJournal<'a>
        ensures bound { bound_of result ≡ 0 }
        ensures power { power_of result ≡ None }
        ensures slots { slots_of result ≡ slots.old }
        ensures same_slots { name_of result ≡ slots.entry.ghost_name }
    {
        SlotJournal::resume(slots, 0, None)
    }

    /// The journal in `slots`, whatever they hold, with this bound, and with power for so many stores or for ever.
    pub fn resume<'a>(slots: &'a mut [Slot], bound: u64, power: Option<u64>) -> SlotJournal<'a>
        ensures bound { bound_of result ≡ bound }
        ensures power { power_of result ≡ power }
        ensures slots { slots_of result ≡ slots.old }
        ensures same_slots { name_of result ≡ slots.entry.ghost_name }
    {
        SlotJournal {
            slots,
            power,
            bound,
        }
    }

    /// The bound: no record is added to a section below it.
    pub fn bound(&self) -> u64
        ensures { result ≡ bound_of self.now }
    {
        self.bound // no cut keeps it
    }

    /// How many stores the power still lasts, or `None` for ever.
    pub fn power(&self) -> Option<u64>
        ensures { result ≡ power_of self.now }
    {
        self.power // as the stores so far have left it
    }

    // The first record with a defect.
    // kept: an `Option`, as the trait's `overrun` is: a `Result` would be turned into it for the contract
    fn first_overrun(&self) -> Option<Overrun>
        ensures { result ≡ overrun_of self.now }
    {
        first_overrun(self.slots)
    }
}

impl Journal for SlotJournal<'_> {
    ghost disk = { disk_of };

    ghost overrun = { overrun_of };

    fn append(&mut self, section: u64, bytes: &[u8]) -> Result<(), Stop>
        ensures step { Appended (disk_of self.old) section bytes.now result (disk_of self.new) }
        ensures overruns { Steady result (overrun_of self.old) (overrun_of self.new) }
        ensures power { Powered 1 result (power_of self.old) (power_of self.new) }
        ensures stored { Storing section bytes.now result (slots_of self.old) (slots_of self.new) }
        ensures same_slots { name_of self.new ≡ name_of self.old }
    {
        if section < self.bound {
            return Err(Stop::Pruned);
        }
        if bytes.len() > MAX_RECORD {
            return Err(Stop::Full);
        }
        let free = self.vacancy().ok_or(Stop::Full)?;
        let slot = Slot::holding(section, free.age, bytes);
        if let Err(stop) = self.store(free.at, slot) {
            self.bound = 0;
            return Err(stop);
        }
        Ok(())
    }

    fn sync(&mut self, section: u64) -> Result<(), Stop>
        ensures step { Synced (disk_of self.old) section result (disk_of self.new) }
        ensures overruns { Steady result (overrun_of self.old) (overrun_of self.new) }
        ensures power { Powered 0 result (power_of self.old) (power_of self.new) }
        ensures slots { slots_of self.new ≡ slots_of self.old }
        ensures same_slots { name_of self.new ≡ name_of self.old }
    {
        Ok(()) // what is stored is durable
    }

    fn sync_all(&mut self) -> Result<(), Stop>
        ensures step { AllSynced (disk_of self.old) result (disk_of self.new) }
        ensures overruns { Steady result (overrun_of self.old) (overrun_of self.new) }
        ensures power { Powered 0 result (power_of self.old) (power_of self.new) }
        ensures slots { slots_of self.new ≡ slots_of self.old }
        ensures same_slots { name_of self.new ≡ name_of self.old }
    {
        Ok(()) // so is every section
    }

    fn prune(&mut self, section: u64) -> Result<(), Stop>
        ensures step { Pruning (disk_of self.old) section result (disk_of self.new) }
        ensures overruns { Clean (overrun_of self.old) (overrun_of self.new) }
        ensures power { Powered (unders section (slots_of self.old)) result (power_of self.old) (power_of self.new) }
        ensures freed { Sweeping section (is_ok result) (slots_of self.old) (slots_of self.new) }
        ensures same_slots { name_of self.new ≡ name_of self.old }
    {
        if let Err(stop) = self.free_below(section) {
            self.bound = 0;
            return Err(stop);
        }
        self.bound = self.bound.max(section);
        Ok(())
    }

    fn read(&mut self) -> Result<(), ReadStop>
        ensures step { Reading (disk_of self.old) (overrun_of self.old) result (disk_of self.new) (overrun_of self.new) }
        ensures formed { Formed (disk_of self.new).log }
        ensures power { Told result × (power_of self.new ≡ power_of self.old) }
        ensures slots { slots_of self.new ≡ slots_of self.old }
        ensures same_slots { name_of self.new ≡ name_of self.old }
    {
        match self.first_overrun() {
            Some(overrun) => Err(ReadStop::Overrun(overrun)),
            None => Ok(()),
        }
    }

    fn next(&self, after: Option<Place>) -> Option<Record<'_>> {
        next_record(self.slots, after)
    }

    fn cut(&mut self)
        ensures step { Cut 0 (disk_of self.old).log (disk_of self.new).log }
        ensures overruns { Clean (overrun_of self.old) (overrun_of self.new) }
        ensures power { power_of self.new ≡ power_of self.old }
        ensures slots { slots_of self.new ≡ slots_of self.old }
        ensures same_slots { name_of self.new ≡ name_of self.old }
    {
        self.bound = 0; // it was in memory only
    }
}
