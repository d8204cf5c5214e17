//! Which record is read next.
ghost use Rattle.std.specs.Prelude.{◌≡◌, ◌+◌, [], MatchOption};
ghost use Rattle.std.specs.Option.{option_map};
ghost use Rattle.std.specs.List.{slice_get};
ghost use Rattle.area.specs.Area.{read, records_of};
ghost use Rattle.journal.specs.Places.{placed};
ghost use Rattle.areas.specs.Plan.{plan, some, shows, records_in, above as Above, candidate as Candidate, lowest as Lowest};
ghost use Rattle.areas_reading.specs.Next.{Points, placed_at, leading, next_of};

use areas::{AREA, areas, owns, part};
use journal::{Place, Record};

// Whether an area has a record.
fn has_record(area: &[u8]) -> bool
    ensures { result ≡ some (records_of area.now) }
{
    area::record(area, 0).is_some()
}

// Whether an area shows the records of a section.
fn is_shown(area: &[u8], section: u64) -> bool
    ensures { result ≡ shows section (read area.now) }
{
    owns(area, section) && has_record(area)
}

// The area that shows the records of a section.
fn holder(medium: &[u8], section: u64) -> Option<&[u8; AREA]>
    ensures { MatchOption result (records_in section (plan medium.now) ≡ []) (λ area. records_in section (plan medium.now) ≡ records_of area.now) }
{
    areas(medium).iter().find(|area| is_shown(*area, section))
}

// Whether a section is above a number, where one is given.
fn is_above(low: Option<u64>, section: u64) -> bool
    ensures { result ≡ Above low section }
{
    low.is_none_or(|low| low < section)
}

// The section of an area that has a record, if it is above.
fn candidate(area: &[u8], low: Option<u64>) -> Option<u64>
    ensures { result ≡ Candidate low (read area.now) }
{
    let section = area::section(area)?;
    if !is_above(low, section) {
        return None;
    }
    has_record(area).then_some(section)
}

// The lowest section above a number of which an area has a record, and the place of the first such area.
fn lowest(medium: &[u8], low: Option<u64>) -> Option<(u64, usize)>
    ensures { Points result (Lowest low (plan medium.now)) (plan medium.now) }
{
    areas(medium)
        .iter()
        .enumerate()
        .filter_map(|(at, area)| candidate(area, low).map(|section| (section, at)))
        .min_by_key(|(section, _)| *section)
}

// A record of an area, with its place.
fn record_in(area: &[u8], section: u64, number: u64) -> Option<Record<'_>>
    ensures { option_map placed result ≡ option_map (placed_at section number) (slice_get (records_of area.now) number) }
{
    let bytes = area::record(area, number)?;
    let place = Place { section, number };
    Some(Record { place, bytes })
}

// The record of a section with a number.
fn record_of(medium: &[u8], section: u64, number: u64) -> Option<Record<'_>>
    ensures { option_map placed result ≡ option_map (placed_at section number) (slice_get (records_in section (plan medium.now)) number) }
{
    record_in(holder(medium, section)?, section, number)
}

// The first record of the lowest section above a number.
fn first_above(medium: &[u8], low: Option<u64>) -> Option<Record<'_>>
    ensures { option_map placed result ≡ leading (Lowest low (plan medium.now)) }
{
    let (section, at) = lowest(medium, low)?;
    record_in(part(medium, at), section, 0)
}

// The next record of the section of a place.
fn record_past(medium: &[u8], place: Place) -> Option<Record<'_>>
    ensures { option_map placed result ≡ option_map (placed_at place.section (place.number + 1)) (slice_get (records_in place.section (plan medium.now)) (place.number + 1)) }
{
    let number = place.number.checked_add(1)?;
    record_of(medium, place.section, number)
}

/// The record past a place: the next of its section, or else the first of the lowest section above; or the very first.
pub fn next(medium: &[u8], after: Option<Place>) -> Option<Record<'_>>
    ensures { option_map placed result ≡ next_of after (plan medium.now) }
{
    let Some(place) = after else {
        return first_above(medium, None);
    };
    record_past(medium, place).or_else(|| first_above(medium, Some(place.section)))
}
