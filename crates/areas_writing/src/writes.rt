//! How the areas of a medium are written.
ghost use Rattle.std.specs.Prelude.{◌≡◌, ◌+◌, ◌*◌, ◌<◌, ◌≤◌, [], length, slice_set};
ghost use Rattle.area.specs.Area.{read};
ghost use Rattle.area.specs.Writes.{Appended, Freed, Started};
ghost use Rattle.areas.specs.Plan.{First, area_at, areas_of, plan, rest_of};
ghost use Rattle.areas_writing.specs.Steps.{Adding, Clearing, ClearingAt, under};

use areas::{AREA, count, find, part, spare};
use journal::{MAX_RECORD, Stop};

// Where an area begins.
fn offset(medium: &[u8], at: usize) -> usize
    requires { at < length (plan medium.now) }
    ensures place { result ≡ at * 4096 }
    ensures inside { result + 4096 ≤ length medium.now }
{
    at * AREA
}

// Adds a record to an area.
fn append_at(medium: &mut [u8], power: &mut Option<u64>, at: usize, body: &[u8]) -> Result<(), Stop>
    requires { at < length (plan medium.old) }
    ensures step { Appended (area_at at medium.old) power.old body.now result (area_at at medium.new) power.new }
    ensures others { plan medium.new ≡ slice_set (plan medium.old) at (read (area_at at medium.new)) }
    ensures rest { rest_of medium.new ≡ rest_of medium.old }
    ensures back { area_at at medium.new ≡ area_at at medium.old → medium.new ≡ medium.old }
{
    let from = offset(medium, at);
    area::append(&mut medium[from..from + AREA], power, body)
}

// Takes a free area into use for a section.
fn start_at(medium: &mut [u8], power: &mut Option<u64>, at: usize, section: u64) -> Result<(), Stop>
    requires { at < length (plan medium.old) }
    ensures step { Started (area_at at medium.old) power.old section result (area_at at medium.new) power.new }
    ensures others { plan medium.new ≡ slice_set (plan medium.old) at (read (area_at at medium.new)) }
    ensures rest { rest_of medium.new ≡ rest_of medium.old }
{
    let from = offset(medium, at);
    area::start(&mut medium[from..from + AREA], power, section)
}

// Frees an area.
fn free_at(medium: &mut [u8], power: &mut Option<u64>, at: usize) -> Result<(), Stop>
    requires { at < length (plan medium.old) }
    ensures step { Freed (area_at at medium.old) power.old result (area_at at medium.new) power.new }
    ensures others { plan medium.new ≡ slice_set (plan medium.old) at (read (area_at at medium.new)) }
    ensures rest { rest_of medium.new ≡ rest_of medium.old }
{
    let from = offset(medium, at);
    area::free(&mut medium[from..from + AREA], power)
}

// Adds a record to a section's first area, unless it has another.
fn extend(
    medium: &mut [u8],
    power: &mut Option<u64>,
    section: u64,
    at: usize,
    body: &[u8],
) -> Result<(), Stop>
    requires { First section 0 at (plan medium.old) }
    ensures step { Adding medium.old power.old section body.now result medium.new power.new }
    ensures rest { rest_of medium.new ≡ rest_of medium.old }
{
    if find(medium, section, at + 1).is_some() {
        return Err(Stop::Full);
    }
    append_at(medium, power, at, body)
}

// Adds the first record of a section, in a free area.
fn begin(medium: &mut [u8], power: &mut Option<u64>, section: u64, body: &[u8]) -> Result<(), Stop>
    requires { areas_of section (plan medium.old) ≡ [] }
    ensures step { Adding medium.old power.old section body.now result medium.new power.new }
    ensures rest { rest_of medium.new ≡ rest_of medium.old }
{
    if body.len() > MAX_RECORD {
        return Err(Stop::Full);
    }
    let Some(at) = spare(medium) else {
        return Err(Stop::Full);
    };
    start_at(medium, power, at, section)?;
    append_at(medium, power, at, body)
}

/// Adds a record at the end of a section.
pub fn append(
    medium: &mut [u8],
    power: &mut Option<u64>,
    section: u64,
    body: &[u8],
) -> Result<(), Stop>
    ensures step { Adding medium.old power.old section body.now result medium.new power.new }
    ensures rest { rest_of medium.new ≡ rest_of medium.old }
{
    match find(medium, section, 0) {
        Some(at) => extend(medium, power, section, at, body),
        None => begin(medium, power, section, body),
    }
}

// Whether an area is in use for a section below `bound`.
#[tactic(auto, unfolding(crate::specs::Steps::under))]
fn is_under(area: &[u8], bound: u64) -> bool
    ensures { result ≡ under bound (read area.now) }
{
    area::section(area).is_some_and(|section| section < bound)
}

// Frees an area, if its section is below `bound`.
fn clear_at(medium: &mut [u8], power: &mut Option<u64>, at: usize, bound: u64) -> Result<(), Stop>
    requires { at < length (plan medium.old) }
    ensures step { ClearingAt medium.old power.old at bound result medium.new power.new }
    ensures rest { rest_of medium.new ≡ rest_of medium.old }
{
    if is_under(part(medium, at), bound) {
        return free_at(medium, power, at);
    }
    Ok(())
}

/// Frees the areas of the sections below `bound`, from the last to the first.
pub fn prune(medium: &mut [u8], power: &mut Option<u64>, bound: u64) -> Result<(), Stop>
    ensures step { Clearing medium.old power.old bound result medium.new power.new }
    ensures rest { rest_of medium.new ≡ rest_of medium.old }
{
    // kept: by index, since of what a loop over `chunks_exact_mut` writes a proof knows the length alone
    for at in (0..count(medium)).rev() {
        clear_at(medium, power, at, bound)?;
    }
    Ok(())
}
