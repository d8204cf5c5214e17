//! How an area is written: the bytes that the power lasts for, in their order.
ghost use Rattle.std.specs.Prelude.{◌≡◌, ◌+◌, ◌<◌, ◌≤◌, length, slice_set};
ghost use Rattle.area.specs.Edits.{put, framed, added, begun};
ghost use Rattle.area.specs.Writes.{Appended, Freed, Started, Stored};

use crate::reads::room;
use crate::records::{HEAD, MARK, NO_MARK, PREFIX};
use journal::Stop;
use power::{draw, spend};

// Stores one byte, if there is power for it.
fn store(area: &mut [u8], power: &mut Option<u64>, at: usize, byte: u8) -> Result<(), Stop>
    requires { at < length area.old }
    ensures { Stored 1 (length area.old) area.old (slice_set area.old at byte) power.old result area.new power.new }
{
    spend(power)?;
    area[at] = byte;
    Ok(())
}

// Stores the bytes of `part` from `at` on, as many as there is power for.
fn store_all(area: &mut [u8], power: &mut Option<u64>, at: usize, part: &[u8]) -> Result<(), Stop>
    requires { at + length part.now ≤ length area.old }
    ensures { Stored (length part.now) at area.old (put at part.now area.old) power.old result area.new power.new }
{
    let made = draw(power, part.len());
    area[at..at + made].copy_from_slice(&part[..made]);
    if made < part.len() {
        return Err(Stop::Off);
    }
    Ok(())
}

// Stores what follows the mark of a record: its length, its body and the next end mark.
fn store_frame(
    area: &mut [u8],
    power: &mut Option<u64>,
    end: usize,
    body: &[u8],
) -> Result<(), Stop>
    requires fits { end + 3 + length body.now < length area.old }
    requires short { length body.now ≤ 1068 }
    ensures { Stored (length body.now + 3) (end + 1) area.old (put (end + 1) (framed body.now) area.old) power.old result area.new power.new }
{
    let len = body.len();
    store_all(area, power, end + 1, &(len as u16).to_be_bytes())?;
    store_all(area, power, end + PREFIX, body)?;
    store(area, power, end + PREFIX + len, NO_MARK)
}

// Stores a record in the place of the end mark: what follows its mark, and its mark last.
fn store_record(
    area: &mut [u8],
    power: &mut Option<u64>,
    end: usize,
    body: &[u8],
) -> Result<(), Stop>
    requires fits { end + 3 + length body.now < length area.old }
    requires short { length body.now ≤ 1068 }
    ensures { Stored (length body.now + 4) (end + 1) area.old (added end body.now area.old) power.old result area.new power.new }
{
    store_frame(area, power, end, body)?;
    store(area, power, end, MARK)
}

// Stores the head of a new area: its section and its first end mark, and its mark last.
fn store_head(area: &mut [u8], power: &mut Option<u64>, section: u64) -> Result<(), Stop>
    requires { 9 < length area.old }
    ensures { Stored 10 1 area.old (begun section area.old) power.old result area.new power.new }
{
    store_all(area, power, 1, &section.to_be_bytes())?;
    store(area, power, HEAD, NO_MARK)?;
    store(area, power, 0, MARK)
}

/// Adds a record behind the others.
pub fn append(area: &mut [u8], power: &mut Option<u64>, body: &[u8]) -> Result<(), Stop>
    ensures { Appended area.old power.old body.now result area.new power.new }
{
    let end = room(area, body.len()).ok_or(Stop::Full)?;
    store_record(area, power, end, body)
}

/// Takes a free area into use for a section, with no record yet.
pub fn start(area: &mut [u8], power: &mut Option<u64>, section: u64) -> Result<(), Stop>
    ensures { Started area.old power.old section result area.new power.new }
{
    if area.len() <= HEAD || area[0] != NO_MARK {
        return Err(Stop::Full);
    }
    store_head(area, power, section)
}

/// Frees an area.
#[tactic(auto, unfolding(crate::specs::Area::read))]
pub fn free(area: &mut [u8], power: &mut Option<u64>) -> Result<(), Stop>
    ensures { Freed area.old power.old result area.new power.new }
{
    if area.is_empty() {
        return Ok(());
    }
    store(area, power, 0, NO_MARK)
}
