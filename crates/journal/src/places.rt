//! Where records stand in a journal, and what may be found there.

/// How many bytes the longest record has.
pub const MAX_RECORD: usize = 1068;

/// The place of a record. Places compare in reading order: by section, then by number.
#[derive(Clone, Copy, Debug, PartialEq, Eq, PartialOrd, Ord, Hash)]
pub struct Place {
    /// The section that the record is in.
    pub section: u64,
    /// How many records of the section are read before it.
    pub number: u64,
}

/// A record as it is read: its place, and its bytes where they lie.
#[derive(Clone, Copy, Debug, PartialEq, Eq)]
pub struct Record<'a> {
    /// Where the record stands.
    pub place: Place,
    /// What the record holds.
    pub bytes: &'a [u8],
}

/// What stands where a record should.
#[derive(Clone, Copy, Debug, PartialEq, Eq, Hash)]
pub enum Defect {
    /// A byte that marks neither a record nor the end.
    Mark,
    /// A length past the end of the area, or past that of the longest record.
    Length,
    /// A second area of a section that has one.
    Area,
    /// An age that another record has.
    Age,
}

/// Where reading comes to something that is no record and no end.
#[derive(Clone, Copy, Debug, PartialEq, Eq, Hash)]
pub struct Overrun {
    /// The place that a record would have there.
    pub place: Place,
    /// What stands there instead.
    pub what: Defect,
}
