//! What is replied to a line.

use console::{Answer, Refused};
use journal_commands::Fault;
use std::fmt;
use std::fmt::Write;

/// What is replied to a line.
#[derive(Drop)]
pub enum Reply<'a> {
    /// What the console says: nothing, an answer, or why the line was refused.
    Console(Result<Option<Answer>, Refused<'a>>),
    /// The journal in the file at this path was opened, and has so many areas.
    Opened(&'a str, u64),
    /// A line that names a file is refused for its words.
    Words(Fault),
    /// The path is no text.
    NoText,
    /// The file at this path cannot be opened.
    NotOpened(&'a str, anyhow::Error),
    /// What the file holds is no journal.
    NoJournal(console_journal::Refusal),
    /// What the line made of the journal cannot be kept in its file, and the journal was closed.
    NotKept(anyhow::Error),
}

impl fmt::Display for Reply<'_> {
    ghost use Rattle.session.specs.Replies.{reply_text};

    ghost output = { reply_text };

    fn fmt<W: fmt::Write>(&self, f: &mut fmt::Formatter<W>) -> fmt::Result {
        match self {
            Self::Console(Ok(None)) => Ok(()),
            Self::Console(Ok(Some(answer))) => writeln!(f, "{answer}"),
            Self::Console(Err(refused)) => writeln!(f, "{refused}"),
            Self::Opened(path, areas) => writeln!(f, "journal file {path}, {areas} areas"),
            Self::Words(fault) => writeln!(f, "refused: {fault}"),
            Self::NoText => writeln!(f, "refused: the path is no text"),
            Self::NotOpened(path, reason) => writeln!(f, "refused: {path}: {reason}"),
            Self::NoJournal(refusal) => writeln!(f, "{refusal}"),
            Self::NotKept(reason) => {
                writeln!(
                    f,
                    "refused: the journal cannot be kept, and is closed: {reason}"
                )
            }
        }
    }
}
