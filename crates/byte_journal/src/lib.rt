//! A journal that keeps its records in areas of a lent slice of bytes.
#![tactic(auto)]

ghost use Rattle.std.specs.Prelude.{◌≡◌, ◌≤◌, None};
ghost use Rattle.areas.specs.Plan.{rest_of};
ghost use Rattle.areas_writing.specs.Steps.{Adding, Clearing};
ghost use Rattle.journal.specs.Cuts.{Cut};
ghost use Rattle.journal.specs.Laws.{Told};
ghost use Rattle.journal.specs.Log.{Formed};
ghost use Rattle.journal.specs.Steps.{Appended, Synced, AllSynced, Pruning, Reading, Steady, Clean, Untouched};
ghost use Rattle.power.specs.Power.{Powered};
ghost use Rattle.byte_journal.specs.Value.{bytes_of, bound_of, power_of, name_of, disk_of, overrun_of, append_cost, prune_cost};

use journal::{Journal, Overrun, Place, ReadStop, Record, Stop};

mod laws;

pub use laws::{
    appends_whole, first_area_shows, first_overrun_stands, layout_stands, prune_frees, prunes_whole,
};

/// A journal over lent bytes, in areas of 4,096. Each byte is one store.
#[derive(Drop)]
pub struct ByteJournal<'a> {
    // the areas; what lies behind the last whole one is never touched
    bytes: &'a mut [u8],
    // no record is added to a section below it
    bound: u64,
    // how many stores the power still lasts, or no limit
    power: Option<u64>,
}

impl ByteJournal<'_> {
    /// The journal in `bytes`, whatever they are, with no bound and with power for ever.
    pub fn new<'a>(bytes: &'a mut [u8]) -> ByteJournal<'a>
        ensures bytes { bytes_of result ≡ bytes.old }
        ensures bound { bound_of result ≡ 0 }
        ensures power { power_of result ≡ None }
        ensures same_bytes { name_of result ≡ bytes.entry.ghost_name }
    {
        ByteJournal::resume(bytes, 0, None)
    }

    /// The journal in `bytes`, whatever they are, with this bound, and with power for so many stores or for ever.
    pub fn resume<'a>(bytes: &'a mut [u8], bound: u64, power: Option<u64>) -> ByteJournal<'a>
        ensures bytes { bytes_of result ≡ bytes.old }
        ensures bound { bound_of result ≡ bound }
        ensures power { power_of result ≡ power }
        ensures same_bytes { name_of result ≡ bytes.entry.ghost_name }
    {
        ByteJournal {
            bytes,
            bound,
            power,
        }
    }

    /// The bound: no record is added to a section below it.
    pub fn bound(&self) -> u64
        ensures { result ≡ bound_of self.now }
    {
        self.bound // in memory alone, so a cut takes it
    }

    /// How many stores the power still lasts, or `None` for ever.
    pub fn power(&self) -> Option<u64>
        ensures { result ≡ power_of self.now }
    {
        self.power // as far as the stores so far have left it
    }

    // The first overrun in reading order.
    fn first_overrun(&self) -> Option<Overrun>
        ensures { result ≡ overrun_of self.now }
    {
        areas_reading::overrun(self.bytes)
    }
}

impl Journal for ByteJournal<'_> {
    ghost disk = { disk_of };

    ghost overrun = { overrun_of };

    fn append(&mut self, section: u64, bytes: &[u8]) -> Result<(), Stop>
        ensures step { Appended (disk_of self.old) section bytes.now result (disk_of self.new) }
        ensures overruns { Steady result (overrun_of self.old) (overrun_of self.new) }
        ensures power { Powered (append_cost section bytes.now (bytes_of self.old)) result (power_of self.old) (power_of self.new) }
        ensures refused { Untouched result (bytes_of self.old) (bytes_of self.new) }
        ensures areas { bound_of self.old ≤ section → Adding (bytes_of self.old) (power_of self.old) section bytes.now result (bytes_of self.new) (power_of self.new) }
        ensures rest { rest_of (bytes_of self.new) ≡ rest_of (bytes_of self.old) }
        ensures same_bytes { name_of self.new ≡ name_of self.old }
    {
        if section < self.bound {
            return Err(Stop::Pruned);
        }
        // kept: through a variable, since two fields behind one reference cannot be lent at once
        let mut power = self.power;
        let appended = areas_writing::append(self.bytes, &mut power, section, bytes);
        self.power = power;
        if appended == Err(Stop::Off) {
            self.bound = 0;
        }
        appended
    }

    fn sync(&mut self, section: u64) -> Result<(), Stop>
        ensures step { Synced (disk_of self.old) section result (disk_of self.new) }
        ensures overruns { Steady result (overrun_of self.old) (overrun_of self.new) }
        ensures power { Powered 0 result (power_of self.old) (power_of self.new) }
        ensures bytes { bytes_of self.new ≡ bytes_of self.old }
        ensures same_bytes { name_of self.new ≡ name_of self.old }
    {
        Ok(()) // what is stored is durable
    }

    fn sync_all(&mut self) -> Result<(), Stop>
        ensures step { AllSynced (disk_of self.old) result (disk_of self.new) }
        ensures overruns { Steady result (overrun_of self.old) (overrun_of self.new) }
        ensures power { Powered 0 result (power_of self.old) (power_of self.new) }
        ensures bytes { bytes_of self.new ≡ bytes_of self.old }
        ensures same_bytes { name_of self.new ≡ name_of self.old }
    {
        Ok(()) // so is every section
    }

    fn prune(&mut self, section: u64) -> Result<(), Stop>
        ensures step { Pruning (disk_of self.old) section result (disk_of self.new) }
        ensures overruns { Clean (overrun_of self.old) (overrun_of self.new) }
        ensures power { Powered (prune_cost section (bytes_of self.old)) result (power_of self.old) (power_of self.new) }
        ensures areas { Clearing (bytes_of self.old) (power_of self.old) section result (bytes_of self.new) (power_of self.new) }
        ensures rest { rest_of (bytes_of self.new) ≡ rest_of (bytes_of self.old) }
        ensures same_bytes { name_of self.new ≡ name_of self.old }
    {
        let mut power = self.power;
        let pruned = areas_writing::prune(self.bytes, &mut power, section);
        self.power = power;
        if let Err(stop) = pruned {
            self.bound = 0;
            return Err(stop);
        }
        self.bound = self.bound.max(section);
        Ok(())
    }

    fn read(&mut self) -> Result<(), ReadStop>
        ensures step { Reading (disk_of self.old) (overrun_of self.old) result (disk_of self.new) (overrun_of self.new) }
        ensures formed { Formed (disk_of self.new).log }
        ensures power { Told result × (power_of self.new ≡ power_of self.old) }
        ensures bytes { bytes_of self.new ≡ bytes_of self.old }
        ensures same_bytes { name_of self.new ≡ name_of self.old }
    {
        match self.first_overrun() {
            Some(overrun) => Err(ReadStop::Overrun(overrun)),
            None => Ok(()),
        }
    }

    fn next(&self, after: Option<Place>) -> Option<Record<'_>> {
        areas_reading::next(self.bytes, after)
    }

    fn cut(&mut self)
        ensures step { Cut 0 (disk_of self.old).log (disk_of self.new).log }
        ensures overruns { Clean (overrun_of self.old) (overrun_of self.new) }
        ensures power { power_of self.new ≡ power_of self.old }
        ensures bytes { bytes_of self.new ≡ bytes_of self.old }
        ensures same_bytes { name_of self.new ≡ name_of self.old }
    {
        self.bound = 0; // it was in memory only
    }
}
