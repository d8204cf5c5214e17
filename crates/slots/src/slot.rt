//! One slot of the list, and the order in which slots are read.
ghost use Rattle.std.specs.Prelude.{◌≡◌, ◌≤◌, ◌==◌, length, take};
ghost use Rattle.slots.specs.Order.{before, gate, is_free, key_of, slot_key};
ghost use Rattle.slots.specs.Stores.{Holds, free, under};

use journal::MAX_RECORD;

/// A record of a section with its age and its length, or free where the age is 0.
// kept: a lent medium's layout. It may hold anything, also a length past the bytes, which reading answers as an overrun.
#[derive(Clone, Copy, Debug, PartialEq, Eq)]
#[repr(C)]
pub struct Slot {
    /// The section that the record is in.
    pub section: u64,
    /// How young the record is: later records have higher ages. A free slot has the age 0.
    pub age: u64,
    /// How many of the bytes the record has.
    pub len: u16,
    /// The record's bytes, and others behind them.
    pub bytes: [u8; MAX_RECORD],
}

/// What a record is read by: its section, then its age, then its place in the list.
#[derive(Clone, Copy, Debug, PartialEq, Eq, PartialOrd, Ord)]
pub struct Key {
    /// The section of the record.
    pub section: u64,
    /// The age of the record.
    pub age: u64,
    /// The place of the slot in the list.
    pub at: usize,
}

impl Slot {
    /// A free slot.
    pub fn free() -> Self
        ensures { result ≡ free }
    {
        Self {
            section: 0,
            age: 0,
            len: 0,
            bytes: [0; MAX_RECORD],
        }
    }

    // A slot that holds a record.
    #[tactic(auto, unfolding(crate::specs::Value::body))]
    pub(crate) fn holding(section: u64, age: u64, body: &[u8]) -> Self
        requires { length body.now ≤ MAX_RECORD }
        ensures { Holds section age body.now result }
    {
        let mut bytes = [0; MAX_RECORD];
        bytes[..body.len()].copy_from_slice(body);
        Self {
            section,
            age,
            len: body.len() as u16,
            bytes,
        }
    }

    // Whether no record is here.
    pub(crate) fn is_free(&self) -> bool
        ensures { result ≡ is_free self.now }
    {
        self.age == 0
    }

    // Whether this is a record of a section below `section`.
    pub(crate) fn is_under(&self, section: u64) -> bool
        ensures { result ≡ under section self.now }
    {
        !self.is_free() && self.section < section
    }

    // The key of the record here, at this place of the list.
    pub(crate) fn key(&self, at: usize) -> Option<Key>
        ensures { result ≡ slot_key at self.now }
    {
        if self.is_free() {
            return None;
        }
        Some(Key::of(self, at))
    }
}

impl Key {
    // What comes before every record of a section and later ones.
    pub(crate) fn gate(section: u64) -> Self
        ensures { result ≡ gate section }
    {
        Self {
            section,
            age: 0,
            at: 0,
        }
    }

    // The key of a record in this slot.
    pub(crate) fn of(slot: &Slot, at: usize) -> Self
        ensures { result ≡ key_of at slot.now }
    {
        Self {
            section: slot.section,
            age: slot.age,
            at,
        }
    }

    // Whether a record of this key is read before one of the other's.
    // kept: what `<` says, whose `Option<Ordering>` of each field takes more instructions
    pub(crate) fn is_before(self, other: Self) -> bool
        ensures { result ≡ before self other }
    {
        if self.section == other.section {
            if self.age == other.age {
                self.at < other.at
            } else {
                self.age < other.age
            }
        } else {
            self.section < other.section
        }
    }
}
