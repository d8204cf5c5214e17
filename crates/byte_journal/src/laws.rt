//! What is true of a byte journal besides what is true of every journal.
ghost use Rattle.byte_journal.specs.Layout.{LayoutStands};
ghost use Rattle.byte_journal.specs.Laws.{FirstAreaShows, FirstOverrun, AppendsWhole, PrunesWhole, PruneFrees};

/// An area that is laid out as a mark, a section, records and an end mark reads as these.
pub fn layout_stands()
    ensures { LayoutStands }
{}

/// The records of a section are those of its first area that has a record.
pub fn first_area_shows()
    ensures { FirstAreaShows }
{}

/// The first overrun is in the lowest section that has a defect or a second area.
pub fn first_overrun_stands()
    ensures { FirstOverrun }
{}

/// Wherever the power goes in an append, the new record is there whole or not at all, and all others stay.
pub fn appends_whole()
    ensures { AppendsWhole }
{}

/// Wherever the power goes in a prune, each section is there whole or not at all, and those not pruned stay.
pub fn prunes_whole()
    ensures { PrunesWhole }
{}

/// Areas of pruned sections are free for others.
pub fn prune_frees()
    ensures { PruneFrees }
{}
