//! What the bytes of an area say.
ghost use Rattle.std.specs.Prelude.{◌≡◌, true, false, MatchOption};
ghost use Rattle.std.specs.Option.{option_map};
ghost use Rattle.std.specs.List.{slice_get};
ghost use Rattle.area.specs.Area.{records_of, end_of, defect_at, defect_of, read};
ghost use Rattle.area.specs.Writes.{room_in};

use crate::records::{HEAD, MARK, NO_MARK, PREFIX, Records, byte};
use journal::{Defect, MAX_RECORD};
use std::array;

/// The section of an area in use; `None` of a free one.
#[tactic(auto, unfolding(crate::specs::Area::read, crate::specs::Area::area_of, crate::specs::Area::section_of))]
pub fn section(area: &[u8]) -> Option<u64>
    ensures { result ≡ option_map (λ a. a.section) (read area.now) }
{
    if byte(area, 0) == NO_MARK {
        return None;
    }
    Some(u64::from_be_bytes(array::from_fn(|i| byte(area, i + 1))))
}

/// The record of this number, counted from 0.
pub fn record(area: &[u8], number: u64) -> Option<&[u8]>
    ensures { option_map (λ x. x.now) result ≡ slice_get (records_of area.now) number }
{
    Records::new(area).nth(number as usize)
}

// The place behind the records, where the end mark is to stand.
#[tactic(auto, using(crate::proofs::Steps::end_inside), unfolding(crate::specs::Area::end_of, crate::specs::Area::extent))]
fn end(area: &[u8]) -> usize
    ensures { result ≡ end_of area.now }
{
    let mut end = HEAD;
    for body in Records::new(area) {
        end += PREFIX + body.len();
    }
    end
}

// What a byte says that stands where no whole record does.
#[tactic(auto, unfolding(crate::specs::Area::defect_at))]
fn judge(mark: u8) -> Option<Defect>
    ensures { result ≡ defect_at mark }
{
    match mark {
        NO_MARK => None,
        MARK => Some(Defect::Length),
        _ => Some(Defect::Mark),
    }
}

/// What stands behind the records of an area in use in the place of the end mark, if anything does.
#[tactic(auto, unfolding(crate::specs::Area::defect_of))]
pub fn defect(area: &[u8]) -> Option<Defect>
    ensures { result ≡ defect_of area.now }
{
    if byte(area, 0) != MARK {
        return Some(Defect::Mark);
    }
    judge(byte(area, end(area)))
}

// The place for the mark of one record more, of `len` bytes; `None` where it has no room.
#[tactic(auto, using(crate::proofs::Steps::end_inside), unfolding(crate::specs::Area::fits, crate::specs::Area::area_of, crate::specs::Area::end_of, crate::specs::Area::defect_of, crate::specs::Area::defect_at))]
pub(crate) fn room(area: &[u8], len: usize) -> Option<usize>
    ensures { MatchOption result (room_in area.now len ≡ false) (λ e. (room_in area.now len ≡ true) × (e ≡ end_of area.now)) }
{
    let end = end(area);
    let is_whole = byte(area, 0) == MARK && byte(area, end) == NO_MARK;
    let has_room = len <= MAX_RECORD && end + PREFIX + len < area.len();
    (is_whole && has_room).then_some(end)
}
