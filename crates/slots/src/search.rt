//! Searches through a list of slots.
ghost use Rattle.std.specs.Prelude.{◌≡◌, None};
ghost use Rattle.slots.specs.Order.{order, after, first_key, near_slot, vacant, highest, aged};

use crate::slot::{Key, Slot};

// The nearer key after `from`: the best so far, or that of one more slot.
fn nearer(from: Key, best: Option<Key>, slot: &Slot, at: usize) -> Option<Key>
    ensures { result ≡ near_slot from best at slot.now }
{
    if slot.is_free() {
        return best;
    }
    let key = Key::of(slot, at);
    if !from.is_before(key) {
        return best;
    }
    match best {
        None => Some(key),
        Some(other) => {
            if key.is_before(other) {
                Some(key)
            } else {
                Some(other)
            }
        }
    }
}

// The key of the record that is read next after `from`.
// kept: one fold over all slots, as an adapter that skips some, or `min` by the derived order, costs up to a third more
pub(crate) fn following(slots: &[Slot], from: Key) -> Option<Key>
    ensures { result ≡ first_key (after from (order slots.now)) }
{
    slots
        .iter()
        .enumerate()
        .fold(None, |best, (at, slot)| nearer(from, best, slot, at))
}

// The first free slot.
pub(crate) fn free_place(slots: &[Slot]) -> Option<usize>
    ensures { result ≡ vacant slots.now }
{
    slots.iter().position(|slot| slot.is_free())
}

// The highest age, or 0 of no slots.
pub(crate) fn highest_age(slots: &[Slot]) -> u64
    ensures { result ≡ highest slots.now }
{
    slots.iter().map(|slot| slot.age).max().unwrap_or(0)
}

// Whether a record of the key's age is read before it.
pub(crate) fn is_aged(slots: &[Slot], key: Key) -> bool
    ensures { result ≡ aged key slots.now }
{
    slots
        .iter()
        .enumerate()
        .filter_map(|(at, slot)| slot.key(at))
        .any(|other| other.age == key.age && other < key)
}
