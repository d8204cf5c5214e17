//! What follows for any list of lines about the journal that is open.
ghost use Rattle.console_journal.specs.Laws.{DurableStays, RecordsWhole};

/// Durable records that are not pruned outlast any lines, wherever the power goes in them.
pub fn durable_stays()
    ensures { DurableStays }
{}

/// After any lines, wherever the power went in them, reading shows whole records only.
pub fn records_whole()
    ensures { RecordsWhole }
{}
