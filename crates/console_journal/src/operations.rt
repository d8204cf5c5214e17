//! Operations on the journal that is open, and what they are answered with.
ghost use Rattle.std.specs.Prelude.{◌≡◌};
ghost use Rattle.journal.specs.Log.{reading};
ghost use Rattle.journal_commands.specs.Reading.{op_of};
ghost use Rattle.byte_journal.specs.Value.{bytes_of, name_of as bytes_name};
ghost use Rattle.slots.specs.Value.{slots_of, name_of as slots_name};
ghost use Rattle.console_journal.specs.Doing.{told, Shown, Did};
ghost use Rattle.console_journal.specs.Held.{slots_cost, bytes_cost, Stays};
ghost use Rattle.console_journal.specs.Journaled.{slots_journal, bytes_journal};

use crate::listings::list;
use crate::{Answer, Refusal};
use byte_journal::ByteJournal;
use journal::{Journal, ReadStop, Stop};
use journal_commands::Operation;
use slots::SlotJournal;
use std::alloc::Global;

/// What is answered to a change that the journal answered so.
fn tell(answer: Answer, done: Result<(), Stop>) -> Result<Answer, Refusal>
    ensures { result ≡ told answer done }
{
    match done {
        Ok(()) => Ok(answer),
        Err(Stop::Full) => Err(Refusal::Full),
        Err(Stop::Pruned) => Err(Refusal::Pruned),
        Err(Stop::Off) => Ok(Answer::WentOff),
    }
}

/// What is answered to a reading that the journal answered so.
fn show<J: Journal>(
    heap: Global,
    journal: &J,
    done: Result<(), ReadStop>,
) -> Result<Answer, Refusal>
    ensures { Shown done (reading (J.disk journal.now).log.sections) result }
{
    match done {
        Ok(()) => {
            let (lines, count) = list(heap, journal, None)?;
            Ok(Answer::Read { lines, count })
        }
        Err(ReadStop::Overrun(overrun)) => {
            let (lines, _) = list(heap, journal, Some(overrun))?;
            Ok(Answer::Overrun { lines, overrun })
        }
        Err(ReadStop::Full) => Err(Refusal::Full),
        Err(ReadStop::Off) => Ok(Answer::WentOff),
    }
}

/// Does the operation on a slot journal, and answers.
// kept: beside `on_bytes`, since of a journal behind a type parameter no clause says that it stays in the medium that was lent
pub(crate) fn on_slots(
    heap: Global,
    journal: &mut SlotJournal<'_>,
    operation: &Operation,
) -> Result<Answer, Refusal>
    ensures did { Did (op_of operation.now) (slots_cost (op_of operation.now) (slots_of journal.old)) (slots_journal journal.old) result (slots_journal journal.new) }
    ensures stays { Stays (op_of operation.now) result (slots_of journal.old) (slots_of journal.new) }
    ensures same_slots { slots_name journal.new ≡ slots_name journal.old }
{
    match operation {
        Operation::Append { section, bytes } => {
            tell(Answer::Appended, journal.append(*section, bytes))
        }
        Operation::Sync(section) => tell(Answer::Synced, journal.sync(*section)),
        Operation::SyncAll => tell(Answer::SyncedAll, journal.sync_all()),
        Operation::Prune(section) => tell(Answer::Pruned, journal.prune(*section)),
        Operation::Read => {
            let done = journal.read();
            show(heap, &*journal, done)
        }
        Operation::Cut => {
            journal.cut();
            Ok(Answer::Cut)
        }
    }
}

/// Does the operation on a byte journal, and answers.
pub(crate) fn on_bytes(
    heap: Global,
    journal: &mut ByteJournal<'_>,
    operation: &Operation,
) -> Result<Answer, Refusal>
    ensures did { Did (op_of operation.now) (bytes_cost (op_of operation.now) (bytes_of journal.old)) (bytes_journal journal.old) result (bytes_journal journal.new) }
    ensures stays { Stays (op_of operation.now) result (bytes_of journal.old) (bytes_of journal.new) }
    ensures same_bytes { bytes_name journal.new ≡ bytes_name journal.old }
{
    match operation {
        Operation::Append { section, bytes } => {
            tell(Answer::Appended, journal.append(*section, bytes))
        }
        Operation::Sync(section) => tell(Answer::Synced, journal.sync(*section)),
        Operation::SyncAll => tell(Answer::SyncedAll, journal.sync_all()),
        Operation::Prune(section) => tell(Answer::Pruned, journal.prune(*section)),
        Operation::Read => {
            let done = journal.read();
            show(heap, &*journal, done)
        }
        Operation::Cut => {
            journal.cut();
            Ok(Answer::Cut)
        }
    }
}
