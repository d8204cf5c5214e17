//! A console with a journal that may be kept in a file.
ghost use Rattle.std.specs.Prelude.{◌≡◌, [], None, Ok, IsSome, OnOk, IfOk, IsOkAnd, MatchOption};
ghost use Rattle.std.specs.Option.{option_map};
ghost use Rattle.console_journal.specs.Obeying.{held, kept_bytes};
ghost use Rattle.session.specs.Files.{bytes_of};

use crate::{JournalFile, Reply};
use console::{Console, Summary};
use journal_commands::{FileLine, read_file_line};
use std::alloc::Global;
use std::io::Write;
use std::str;

/// A console, and the file that its journal is kept in.
#[derive(Drop)]
pub struct Session {
    console: Console,
    file: Option<JournalFile>,
}

/// Keeps these bytes in the file; where there are none, the file is let go.
fn keep(
    rt: &HostRuntime,
    file: Option<JournalFile>,
    bytes: Option<&[u8]>,
) -> anyhow::Result<Option<JournalFile>>
    ensures none { file ≡ None → IsOkAnd result (λ kept. kept ≡ None) }
    ensures some { IsSome file → IfOk result (λ kept. option_map bytes_of kept ≡ option_map (λ b. b.now) bytes.entry) }
{
    let (Some(mut file), Some(bytes)) = (file, bytes) else {
        return Ok(None);
    };
    file.keep(rt, bytes)?;
    Ok(Some(file))
}

/// The file at this path, with its bytes once more. Another may be open.
fn open_file(
    rt: &HostRuntime,
    path: &str,
    areas: Option<u64>,
    open: Option<&JournalFile>,
) -> anyhow::Result<(JournalFile, Vec<u8>)>
    ensures { IfOk result (λ opened. opened.1.items ≡ bytes_of opened.0) }
{
    let file = JournalFile::open(rt, path, areas, open)?;
    let bytes = file.bytes().to_vec(rt.alloc())?;
    Ok((file, bytes))
}

impl Session {
    ghost use Rattle.journal_commands.specs.Files.{named, file_line};
    ghost use Rattle.text.specs.Words.{words};
    ghost use Rattle.session.specs.Sessions.{IsInStep, ByFile, Does, Answers, IsFresh, Sums};

    /// A session that has seen nothing.
    pub fn new(heap: Global) -> Self
        ensures { IsFresh result }
    {
        Self {
            console: Console::new(heap),
            file: None,
        }
    }

    /// What the console has seen so far.
    pub fn summary(&self) -> Summary
        ensures { Sums self.now result }
    {
        self.console.summary()
    }

    /// Opens the journal in a file; where it cannot be opened, nothing changes.
    fn open<'a>(&mut self, rt: &HostRuntime, line: FileLine<'a>) -> Reply<'a>
        ensures reply { ByFile (Ok (named line.entry)) self.old result self.new }
    {
        let Ok(path) = str::from_utf8(line.path) else {
            self.console.refuse();
            return Reply::NoText;
        };
        let (file, bytes) = match open_file(rt, path, line.areas, self.file.as_ref()) {
            Ok(opened) => opened,
            Err(reason) => {
                self.console.refuse();
                return Reply::NotOpened(path, reason);
            }
        };
        match self.console.load(bytes) {
            Ok(areas) => {
                self.file = Some(file);
                Reply::Opened(path, areas)
            }
            Err(refusal) => Reply::NoJournal(refusal),
        }
    }

    /// Takes a line, and says what it did; what it made of a journal in a file is kept there before.
    pub fn take<'a>(&mut self, rt: &HostRuntime, line: &'a [u8]) -> Reply<'a>
        ensures does { Does (file_line (words line.now)) line.now self.old result self.new }
        ensures in_step { IsInStep self.old → IsInStep self.new }
    {
        match read_file_line(line) {
            Some(Ok(line)) => return self.open(rt, line),
            Some(Err(fault)) => {
                self.console.refuse();
                return Reply::Words(fault);
            }
            None => {}
        }
        let reply = self.console.take(line);
        if self.file.is_none() {
            return Reply::Console(reply);
        }
        match keep(rt, self.file.take(), self.console.kept_bytes()) {
            Ok(file) => {
                self.file = file;
                Reply::Console(reply)
            }
            Err(reason) => {
                self.console.lose_journal();
                Reply::NotKept(reason)
            }
        }
    }

    /// Takes a line, and prints what it did; what it made of a journal in a file is kept there before, whether the
    /// printing is done or fails.
    pub fn answer<W: Write>(
        &mut self,
        rt: &HostRuntime,
        line: &[u8],
        out: &mut W,
    ) -> anyhow::Result<()>
        ensures printed { OnOk result (Answers line.now self.old self.new (W.contents out.old) (W.contents out.new)) }
        ensures in_step { IsInStep self.old → IsInStep self.new }
    {
        let reply = self.take(rt, line);
        if let Reply::Console(Ok(None)) = &reply {
            return Ok(());
        }
        write!(out, "{reply}")?;
        out.flush()?;
        Ok(())
    }
}
