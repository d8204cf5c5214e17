//! What is answered to a command about journals, and what is printed of it.
ghost use Rattle.std.specs.Prelude.{◌≡◌, Some};

use journal::{Defect, Overrun, Place};
use journal_commands::Fault;
use std::alloc::AllocError;
use std::fmt;
use text::Hex;

/// Why a command was refused.
#[derive(Clone, Copy, Debug, PartialEq, Eq)]
pub enum Refusal {
    /// The words of the line are wrong.
    Words(Fault),
    /// No journal is open.
    NoJournal,
    /// The journal has no room.
    Full,
    /// The section is below the bound.
    Pruned,
    /// The medium has slots, and no bytes to be named.
    NoBytes,
    /// The medium has so many bytes, and not those that are named.
    PastEnd(usize),
    /// A file of so many bytes is no journal.
    FileLength(usize),
    /// The heap has no memory for the medium or for the answer.
    NoMemory,
}

/// What a command did.
#[derive(Drop)]
pub enum Answer {
    /// A new byte journal of so many areas is open.
    NewBytes(u64),
    /// A new slot journal of so many slots is open.
    NewSlots(u64),
    /// The record was added.
    Appended,
    /// The section is durable.
    Synced,
    /// Every section is durable.
    SyncedAll,
    /// The bound was raised, and the sections below it dropped.
    Pruned,
    /// The power went while it was done.
    WentOff,
    /// All records were read.
    Read {
        /// A line for each.
        lines: String,
        /// How many they are.
        count: u64,
    },
    /// The records before an overrun were read.
    Overrun {
        /// A line for each.
        lines: String,
        /// What stands behind them.
        overrun: Overrun,
    },
    /// The power was cut.
    Cut,
    /// The power lasts for so many stores, or for ever.
    Power(Option<u64>),
    /// A byte of the medium was changed; it was this one.
    Damaged(u8),
    /// These bytes are in the medium.
    Bytes(Vec<u8>),
}

impl From<Fault> for Refusal {
    ghost use Rattle.console_journal.specs.declared.answers.Refusal.TheVariants.{Words};

    ghost from_gives = { λ fault refusal. refusal ≡ Words fault };

    fn from(fault: Fault) -> Self {
        Self::Words(fault)
    }
}

impl From<AllocError> for Refusal {
    ghost use Rattle.console_journal.specs.declared.answers.Refusal.TheVariants.{NoMemory};

    ghost from_gives = { λ _ refusal. refusal ≡ NoMemory };

    fn from(_: AllocError) -> Self {
        Self::NoMemory
    }
}

// kept: thiserror's derive would write this impl, and promises nothing of what it prints
impl fmt::Display for Refusal {
    ghost use Rattle.console_journal.specs.Printed.{refusal_line};

    ghost output = { λ e. Some (refusal_line e) };

    fn fmt<W: fmt::Write>(&self, f: &mut fmt::Formatter<W>) -> fmt::Result {
        match *self {
            Self::Words(fault) => write!(f, "refused: {fault}"),
            Self::NoJournal => f.write_str(
                "refused: no journal is open, a line \"journal ..\" comes first",
            ),
            Self::Full => f.write_str("refused 27 JournalFull"),
            Self::Pruned => f.write_str("refused 28 JournalPruned"),
            Self::NoBytes => f.write_str(
                "refused: the journal that is open has slots and no bytes",
            ),
            Self::PastEnd(bytes) => write!(
                f,
                "refused: the journal has {bytes} bytes, and no others"
            ),
            Self::FileLength(bytes) => write!(
                f,
                "refused: the file has {bytes} bytes, and not 1 to 1024 areas of 4096"
            ),
            Self::NoMemory => f.write_str("refused: no memory is left"),
        }
    }
}

/// What stands where a record should, in words.
#[derive(Clone, Copy)]
struct What(Defect);

impl fmt::Display for What {
    ghost use Rattle.console_journal.specs.Printed.{defect_text};

    ghost output = { λ w. Some (defect_text w.0) };

    fn fmt<W: fmt::Write>(&self, f: &mut fmt::Formatter<W>) -> fmt::Result {
        f.write_str(match self.0 {
            Defect::Mark => "another mark",
            Defect::Length => "a length past the record or the area",
            Defect::Area => "a second area",
            Defect::Age => "an age twice",
        })
    }
}

/// The last line of a reading that came to an overrun.
#[derive(Clone, Copy)]
struct OverrunLine(Overrun);

impl fmt::Display for OverrunLine {
    ghost use Rattle.console_journal.specs.Printed.{overrun_line};

    ghost output = { λ l. Some (overrun_line l.0) };

    fn fmt<W: fmt::Write>(&self, f: &mut fmt::Formatter<W>) -> fmt::Result {
        let Place { section, number } = self.0.place;
        let what = What(self.0.what);
        write!(f, "overrun section {section} number {number}: {what}")
    }
}

impl fmt::Display for Answer {
    ghost use Rattle.console_journal.specs.Printed.{answer_text};

    ghost output = { λ a. Some (answer_text a) };

    fn fmt<W: fmt::Write>(&self, f: &mut fmt::Formatter<W>) -> fmt::Result {
        match self {
            Self::NewBytes(areas) => write!(f, "journal bytes, {areas} areas"),
            Self::NewSlots(slots) => write!(f, "journal slots, {slots} slots"),
            Self::Appended => f.write_str("appended"),
            Self::Synced => f.write_str("synced"),
            Self::SyncedAll => f.write_str("synced all"),
            Self::Pruned => f.write_str("pruned"),
            Self::WentOff => f.write_str("off, the power went"),
            Self::Read { lines, count } => write!(f, "{lines}read {count} records"),
            Self::Overrun { lines, overrun } => {
                let last = OverrunLine(*overrun);
                write!(f, "{lines}{last}")
            }
            Self::Cut => f.write_str("cut"),
            Self::Power(None) => f.write_str("power without limit"),
            Self::Power(Some(stores)) => write!(f, "power for {stores} stores"),
            Self::Damaged(was) => write!(f, "damaged, was {was}"),
            Self::Bytes(bytes) => {
                let bytes = Hex(bytes.as_slice());
                write!(f, "bytes {bytes}")
            }
        }
    }
}
