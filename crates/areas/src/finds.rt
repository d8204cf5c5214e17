//! What is found among the areas of a medium.
ghost use Rattle.std.specs.Prelude.{◌≡◌, ◌<◌, true, false, not, [], length, drop, is_some, None, MatchOption, slice_index_or};
ghost use Rattle.area.specs.Area.{read};
ghost use Rattle.areas.specs.Plan.{area_at, areas_in, plan, owned_by, areas_of, First, spared};

/// How many bytes an area has.
pub const AREA: usize = 4096;

/// The whole areas of a medium.
pub fn areas(medium: &[u8]) -> &[[u8; AREA]]
    ensures { result.now ≡ areas_in medium.now }
{
    medium.as_chunks().0
}

/// How many whole areas a medium has.
pub fn count(medium: &[u8]) -> usize
    ensures { result ≡ length (plan medium.now) }
{
    medium.len() / AREA
}

/// The bytes of an area; none past the last.
pub fn part(medium: &[u8], i: usize) -> &[u8]
    ensures reads { read result.now ≡ slice_index_or (plan medium.now) i None }
    ensures value { i < length (plan medium.now) → result.now ≡ area_at i medium.now }
{
    if i >= count(medium) {
        return &[];
    }
    &medium[i * AREA..i * AREA + AREA]
}

/// Whether an area is in use for a section.
pub fn owns(area: &[u8], section: u64) -> bool
    ensures { result ≡ owned_by section (read area.now) }
{
    area::section(area) == Some(section)
}

/// The first area of a section, from a place on.
pub fn find(medium: &[u8], section: u64, from: usize) -> Option<usize>
    ensures { MatchOption result (areas_of section (drop from (plan medium.now)) ≡ []) (λ i. First section from i (plan medium.now)) }
{
    let at = areas(medium)
        .iter()
        .skip(from)
        .position(|area| owns(area, section))?;
    Some(from + at)
}

// Whether an area is free.
fn is_free(area: &[u8]) -> bool
    ensures { result ≡ not (is_some (read area.now)) }
{
    area::section(area).is_none()
}

/// A free area.
pub fn spare(medium: &[u8]) -> Option<usize>
    ensures { MatchOption result (spared (plan medium.now) ≡ false) (λ i. (spared (plan medium.now) ≡ true) × (i < length (plan medium.now)) × (slice_index_or (plan medium.now) i None ≡ None)) }
{
    areas(medium).iter().position(|area| is_free(area))
}
