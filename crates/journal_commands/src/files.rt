//! The lines that name a file.
ghost use Rattle.std.specs.Prelude.{◌≡◌};
ghost use Rattle.std.specs.Option.{option_map};
ghost use Rattle.fields.specs.Lines.{behind};
ghost use Rattle.fields.specs.Results.{result_map};
ghost use Rattle.text.specs.Words.{words};
ghost use Rattle.journal_commands.specs.Files.{named, areas_of, file_of, file_args, file_line};

use crate::{Fault, MAX_UNITS};
use fields::Line;
use text::split_word;

/// What a line `journal file ..` says: the file, and how many areas it is to have where it is a new one.
#[derive(Clone, Copy, Debug, PartialEq, Eq)]
pub struct FileLine<'a> {
    /// The path of the file.
    pub path: &'a [u8],
    /// The areas of a new file; `None` for one that is there.
    pub areas: Option<u64>,
}

/// How many areas a new file is to have, if the line says so.
fn read_areas(line: &mut Line<'_>) -> Result<Option<u64>, Fault>
    ensures areas { result ≡ areas_of line.old }
    ensures left { line.new ≡ behind line.old }
{
    match line.number(MAX_UNITS) {
        Ok(0) => Err(Fault::NoAreas),
        Ok(areas) => Ok(Some(areas)),
        Err(fields::Fault::Missing { .. }) => Ok(None),
        Err(fault) => Err(Fault::Word(fault)),
    }
}

/// What the words after `journal file` say.
fn read_file<'a>(line: &mut Line<'a>) -> Result<FileLine<'a>, Fault>
    ensures { result_map named result ≡ file_of line.old }
{
    let path = line.word()?;
    let areas = read_areas(line)?;
    line.end()?;
    Ok(FileLine { path, areas })
}

/// What the words behind `journal` say of a file; `None` where they speak of none.
fn read_args(args: &[u8]) -> Option<Result<FileLine<'_>, Fault>>
    ensures { option_map (result_map named) result ≡ file_args (words args.now) }
{
    let mut line = Line::new(args);
    let kind = line.word().ok()?;
    if kind != b"file".as_slice() {
        return None;
    }
    Some(read_file(&mut line))
}

/// What a line `journal file ..` says; `None` where it is another line.
pub fn read_file_line(line: &[u8]) -> Option<Result<FileLine<'_>, Fault>>
    ensures { option_map (result_map named) result ≡ file_line (words line.now) }
{
    let (name, args) = split_word(line)?;
    if name != b"journal".as_slice() {
        return None;
    }
    read_args(args)
}
