//! The stores of a journal, one slot each, as long as the power lasts.
ghost use Rattle.std.specs.Prelude.{◌≡◌, ◌<◌, length, if◌then◌else◌, MatchOption, slice_set, is_ok};
ghost use Rattle.power.specs.Power.{lasts, lit, spent};
ghost use Rattle.slots.specs.Stores.{stores_at, unders, freed_at, Sweeping};
ghost use Rattle.slots.specs.Value.{SameRest};
ghost use Rattle.slots.specs.Vacancies.{NoRoom, Room};

use crate::search::{free_place, highest_age};
use crate::{Slot, SlotJournal};
use journal::Stop;
use power::spend;

/// A free slot, and the age of the record that goes there.
#[derive(Clone, Copy, Debug, PartialEq, Eq)]
pub struct Vacancy {
    /// The place of the slot.
    pub at: usize,
    /// The age after the highest.
    pub age: u64,
}

impl SlotJournal<'_> {
    // Where the next record goes.
    #[tactic(auto, using(crate::proofs::Rooms::none_free, crate::proofs::Rooms::none_young, crate::proofs::Rooms::some_room))]
    pub(crate) fn vacancy(&self) -> Option<Vacancy>
        ensures { MatchOption result (NoRoom self.now.slots.now) (λ v. Room v self.now.slots.now) }
    {
        let at = free_place(self.slots)?;
        let age = highest_age(self.slots).checked_add(1)?;
        Some(Vacancy { at, age })
    }

    // Stores a slot whole.
    pub(crate) fn store(&mut self, at: usize, slot: Slot) -> Result<(), Stop>
        requires { at < length self.old.slots.now }
        ensures answer { result ≡ lit (lasts 1 self.old.power) }
        ensures left { self.new.power ≡ spent 1 self.old.power }
        ensures stored { self.new.slots.now ≡ (if is_ok result then slice_set self.old.slots.now at slot else self.old.slots.now) }
        ensures same { SameRest self.old self.new }
    {
        spend(&mut self.power)?;
        self.slots[at] = slot;
        Ok(())
    }

    // Frees one slot, if it holds a record of a section below `section`.
    fn free_one(&mut self, at: usize, section: u64) -> Result<(), Stop>
        requires { at < length self.old.slots.now }
        ensures answer { result ≡ lit (lasts (stores_at section at self.old.slots.now) self.old.power) }
        ensures left { self.new.power ≡ spent (stores_at section at self.old.slots.now) self.old.power }
        ensures freed { self.new.slots.now ≡ (if is_ok result then freed_at section at self.old.slots.now else self.old.slots.now) }
        ensures same { SameRest self.old self.new }
    {
        if self.slots[at].is_under(section) {
            self.store(at, Slot::free())?;
        }
        Ok(())
    }

    // Frees the records of the sections below `section`, as long as the power lasts.
    pub(crate) fn free_below(&mut self, section: u64) -> Result<(), Stop>
        ensures answer { result ≡ lit (lasts (unders section self.old.slots.now) self.old.power) }
        ensures left { self.new.power ≡ spent (unders section self.old.slots.now) self.old.power }
        ensures freed { Sweeping section (is_ok result) self.old.slots.now self.new.slots.now }
        ensures same { SameRest self.old self.new }
    {
        // kept: by index, since each store borrows the whole medium, and of what a loop over `iter_mut` writes a proof knows the length alone
        for at in 0..self.slots.len() {
            self.free_one(at, section)?;
        }
        Ok(())
    }
}
