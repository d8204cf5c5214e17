//! Goes through the records of a list of slots in reading order.
ghost use Rattle.std.specs.Prelude.{◌≡◌};
ghost use Rattle.std.specs.Option.{option_map};
ghost use Rattle.journal.specs.Places.{placed, past_place, beyond, first_of};
ghost use Rattle.slots.specs.Order.{order};
ghost use Rattle.slots.specs.Value.{listed, over};

use crate::entries::Entries;
use crate::slot::Slot;
use journal::{Overrun, Place, Record};

// The very first record.
fn first_record(slots: &[Slot]) -> Option<Record<'_>>
    ensures { option_map placed result ≡ first_of (listed 0 0 (order slots.now)) }
{
    Entries::from(slots, 0).next().map(|entry| entry.record())
}

// The first record past a place.
fn record_past(slots: &[Slot], place: Place) -> Option<Record<'_>>
    ensures { option_map placed result ≡ first_of (past_place place.section place.number (listed 0 0 (order slots.now))) }
{
    Entries::from(slots, place.section)
        .find(|entry| entry.place() > place)
        .map(|entry| entry.record())
}

// The first record past a place, or the very first.
#[tactic(auto, unfolding(journal::specs::Places::beyond))]
pub(crate) fn next_record(slots: &[Slot], after: Option<Place>) -> Option<Record<'_>>
    ensures { option_map placed result ≡ first_of (beyond after (listed 0 0 (order slots.now))) }
{
    match after {
        None => first_record(slots),
        Some(place) => record_past(slots, place),
    }
}

// The first record with a defect.
// kept: an `Option`, as the trait's `overrun` is: a `Result` would be turned into it for the contract
pub(crate) fn first_overrun(slots: &[Slot]) -> Option<Overrun>
    ensures { result ≡ over slots.now }
{
    for entry in Entries::from(slots, 0) {
        if let Some(what) = entry.defect(slots) {
            let place = entry.place();
            return Some(Overrun { place, what });
        }
    }
    None
}
