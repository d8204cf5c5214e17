//! What follows for every journal from what each operation promises.
ghost use Rattle.journal.specs.Laws.{DurableStays, RecordsWhole, ReadTwice};

/// Durable records that are not pruned outlast every list of operations, with a power cut anywhere in it.
pub fn durable_stays()
    ensures { DurableStays }
{}

/// After any list of operations, with a power cut anywhere in it, reading answers whole records only.
pub fn records_whole()
    ensures { RecordsWhole }
{}

/// What reading answers twice is the same.
pub fn read_twice()
    ensures { ReadTwice }
{}
