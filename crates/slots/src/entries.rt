//! The records of a list of slots in reading order.
ghost use Rattle.std.specs.Prelude.{◌≡◌, if◌then◌else◌, nat_eq};
ghost use Rattle.std.specs.Iterator.{YieldsFirstBy, item_count};
ghost use Rattle.journal.specs.Places.{placed};
ghost use Rattle.slots.specs.Order.{aged, key_of};
ghost use Rattle.slots.specs.Value.{flaw};
ghost use Rattle.slots.specs.Entries.{turn_of, placed_turn, Begun, left, HasRoom};

use crate::search::{following, is_aged};
use crate::slot::{Key, Slot};
use journal::{Defect, MAX_RECORD, Place, Record};

/// A record of the list: its slot, the place of that in the list, and its number in its section.
#[derive(Clone, Copy, Debug, PartialEq, Eq)]
pub struct Entry<'a> {
    /// The slot that holds it.
    pub slot: &'a Slot,
    /// The place of the slot in the list.
    pub at: usize,
    /// How many records of its section are read before it.
    pub number: u64,
}

impl<'a> Entry<'a> {
    // Where the record stands in the journal.
    pub(crate) fn place(&self) -> Place
        ensures { result ≡ record { section = self.now.slot.now.section; number = self.now.number } }
    {
        Place {
            section: self.slot.section,
            number: self.number,
        }
    }

    // The record with its place.
    pub(crate) fn record(&self) -> Record<'a>
        ensures { placed result ≡ placed_turn (turn_of self.now) }
    {
        let len = (self.slot.len as usize).min(MAX_RECORD);
        Record {
            place: self.place(),
            bytes: &self.slot.bytes[..len],
        }
    }

    // What is wrong with the record among these slots, if anything.
    // kept: an `Option`, as the trait's `overrun` is: a `Result` would be turned into it for the contract
    pub(crate) fn defect(&self, slots: &[Slot]) -> Option<Defect>
        ensures { result ≡ flaw self.now.slot.now.len (aged (key_of self.now.at self.now.slot.now) slots.now) }
    {
        if self.slot.len as usize > MAX_RECORD {
            return Some(Defect::Length);
        }
        if is_aged(slots, Key::of(self.slot, self.at)) {
            return Some(Defect::Age);
        }
        None
    }
}

/// The records of a section and later ones, in reading order.
#[derive(Drop)]
pub struct Entries<'a> {
    slots: &'a [Slot],
    // the key of the record that was read last, or what comes before the first
    last: Key,
    // how many records of its section were read
    number: u64,
}

impl<'a> Entries<'a> {
    // The records of `slots` from the first of `section` on.
    pub(crate) fn from(slots: &'a [Slot], section: u64) -> Self
        ensures { Begun section slots.now result }
    {
        Self {
            slots,
            last: Key::gate(section),
            number: 0,
        }
    }

    // The number of the next record, which is one of `section`.
    fn next_number(&self, section: u64) -> u64
        ensures { result ≡ (if nat_eq self.now.last.section section then self.now.number else 0) }
    {
        if self.last.section == section {
            self.number
        } else {
            0
        }
    }
}

impl<'a> Iterator for Entries<'a> {
    type Item = Entry<'a>;

    ghost can_next = { HasRoom };

    ghost next_gives = { YieldsFirstBy turn_of left };

    ghost remaining = { item_count left };

    fn next(&mut self) -> Option<Entry<'a>> {
        let slots = self.slots;
        let key = following(slots, self.last)?;
        let number = self.next_number(key.section);
        self.last = key;
        self.number = number + 1;
        Some(Entry {
            slot: &slots[key.at],
            at: key.at,
            number,
        })
    }
}
