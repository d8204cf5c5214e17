//! The records that reading answers, as they are printed.
ghost use Rattle.std.specs.Prelude.{◌≡◌, Some, IfOk, length, string_bytes};
ghost use Rattle.std.specs.Option.{option_map};
ghost use Rattle.journal.specs.Log.{Formed, reading};
ghost use Rattle.journal.specs.Places.{placed, beyond, first_of};
ghost use Rattle.console_journal.specs.Listings.{precedes, up_to, record_line, lines};

use journal::{Journal, Overrun, Place, Record};
use std::alloc::{AllocError, Global};
use std::fmt;
use text::Hex;

/// A record that prints as a line: its section, its number and its bytes in hex.
#[derive(Clone, Copy)]
struct RecordLine<'a>(Record<'a>);

impl fmt::Display for RecordLine<'_> {
    ghost output = { λ l. Some (record_line (placed l.0)) };

    fn fmt<W: fmt::Write>(&self, f: &mut fmt::Formatter<W>) -> fmt::Result {
        let Place { section, number } = self.0.place;
        let bytes = Hex(self.0.bytes);
        write!(f, "record {section} {number} {bytes}")
    }
}

/// Whether reading comes to this place before the overrun, if there is one.
fn is_before(place: Place, overrun: Option<Overrun>) -> bool
    ensures { result ≡ precedes overrun place.section place.number }
{
    match overrun {
        None => true,
        Some(overrun) => place < overrun.place,
    }
}

/// The first record past a place, or the very first, if it stands before the overrun.
fn next_before<J: Journal>(
    journal: &J,
    last: Option<Place>,
    overrun: Option<Overrun>,
) -> Option<Record<'_>>
    ensures first { option_map placed result ≡ first_of (up_to overrun (beyond last (reading (J.disk journal.now).log.sections))) }
    ensures formed { Formed (J.disk journal.now).log }
{
    let record = journal.next(last)?;
    if is_before(record.place, overrun) {
        Some(record)
    } else {
        None
    }
}

/// The lines of the records that stand before the overrun, if there is one, and how many they are.
pub(crate) fn list<J: Journal>(
    heap: Global,
    journal: &J,
    overrun: Option<Overrun>,
) -> Result<(String, u64), AllocError>
    ensures lines { IfOk result (λ p. string_bytes p.0 ≡ lines (up_to overrun (reading (J.disk journal.now).log.sections))) }
    ensures count { IfOk result (λ p. p.1 ≡ length (up_to overrun (reading (J.disk journal.now).log.sections))) }
{
    let mut lines = String::new(heap);
    let mut last = None;
    for count in 0..u64::MAX {
        let Some(record) = next_before(journal, last, overrun) else {
            return Ok((lines, count));
        };
        writeln!(lines, "{}", RecordLine(record))?;
        last = Some(record.place);
    }
    Err(AllocError) // no memory holds so many lines
}
