//! The records of an area, one after the other.
ghost use Rattle.std.specs.Prelude.{◌≡◌, ◌≤◌, true, false, length, MatchOption, slice_index};
ghost use Rattle.std.specs.Iterator.{YieldsFirstRef, item_count};
ghost use Rattle.area.specs.Area.{body, holds, records_of};
ghost use Rattle.area.specs.Records.{left};

use journal::MAX_RECORD;

/// What marks an area in use, and each record in it.
pub(crate) const MARK: u8 = 1;

/// What stands in the place of a mark in a free area, and behind the last record.
pub(crate) const NO_MARK: u8 = 0;

/// Where the first record of an area stands: behind the mark and the section.
pub(crate) const HEAD: usize = 9;

/// What stands in front of a record's body: its mark and two bytes for its length.
pub(crate) const PREFIX: usize = 3;

// The byte at a place; past the last byte each counts as 0.
pub(crate) fn byte(area: &[u8], at: usize) -> u8
    ensures { result ≡ slice_index area.now at }
{
    area.get(at).copied().unwrap_or(0)
}

// The body of the record at `at`; `None` where no whole record stands there.
#[tactic(auto, unfolding(crate::specs::Area::holds, crate::specs::Area::body))]
fn body_at(area: &[u8], at: usize) -> Option<&[u8]>
    ensures { MatchOption result (holds area.now at ≡ false) (λ b. (holds area.now at ≡ true) × (b.now ≡ body area.now at)) }
{
    let [MARK, high, low, rest @ ..] = area.get(at..)? else {
        return None;
    };
    let len = usize::from(u16::from_be_bytes([*high, *low]));
    if len > MAX_RECORD {
        return None;
    }
    rest.get(..len)
}

/// The records of an area, from the first to the last.
#[derive(Drop)]
pub struct Records<'a> {
    area: &'a [u8],
    // the place of the next one's mark
    at: usize,
}

impl<'a> Records<'a> {
    /// The records of the area, up to the end mark, or to something that is neither a record nor the end.
    #[tactic(auto, using(crate::proofs::Steps::past_end, crate::proofs::Steps::count_at), unfolding(crate::specs::Area::records_of))]
    pub fn new(area: &'a [u8]) -> Self
        ensures value { left result ≡ records_of area.now }
        ensures within { length (left result) ≤ length area.now }
    {
        let at = if byte(area, 0) == MARK {
            HEAD
        } else {
            area.len()
        };
        Self { area, at }
    }
}

impl<'a> Iterator for Records<'a> {
    type Item = &'a [u8];

    ghost next_gives = { YieldsFirstRef left };

    ghost remaining = { item_count left };

    #[tactic(auto, using(crate::proofs::Steps::at_none, crate::proofs::Steps::at_next, crate::proofs::Steps::body_inside))]
    fn next(&mut self) -> Option<&'a [u8]> {
        let body = body_at(self.area, self.at)?;
        self.at += PREFIX + body.len();
        Some(body)
    }
}
