//! Where reading a medium comes to something that is no record and no end.
ghost use Rattle.std.specs.Prelude.{◌≡◌, length};
ghost use Rattle.area.specs.Area.{read, records_of};
ghost use Rattle.areas.specs.Plan.{plan, areas_of};
ghost use Rattle.areas_reading.specs.Overruns.{overrun_of, overrun_by, overrun as Overran};

use area::Records;
use areas::{areas, find, part};
use journal::{Defect, Overrun, Place};

// How many records an area has.
fn count_records(area: &[u8]) -> u64
    ensures { result ≡ length (records_of area.now) }
{
    Records::new(area).count() as u64
}

// The overrun of a section: behind the records of its first area, or its second area.
fn overrun_of(medium: &[u8], section: u64) -> Option<Overrun>
    ensures { result ≡ overrun_of section (areas_of section (plan medium.now)) }
{
    let i = find(medium, section, 0)?;
    let area = part(medium, i);
    let number = count_records(area);
    let place = Place { section, number };
    if let Some(what) = area::defect(area) {
        return Some(Overrun { place, what });
    }
    find(medium, section, i + 1)?;
    Some(Overrun {
        place,
        what: Defect::Area,
    })
}

// The overrun of the section of an area.
fn overrun_by(medium: &[u8], area: &[u8]) -> Option<Overrun>
    ensures { result ≡ overrun_by (plan medium.now) (read area.now) }
{
    overrun_of(medium, area::section(area)?)
}

/// The first overrun in reading order.
pub fn overrun(medium: &[u8]) -> Option<Overrun>
    ensures { result ≡ Overran (plan medium.now) }
{
    areas(medium)
        .iter()
        .filter_map(|area| overrun_by(medium, area))
        .min_by_key(|overrun| overrun.place.section)
}
