//! What a line says, by its first word and those after it.
ghost use Rattle.std.specs.Prelude.{◌≡◌};
ghost use Rattle.fields.specs.Lines.{line_of, ended};
ghost use Rattle.fields.specs.Results.{result_map, no_memory as no_memory_in, OrNoMemory};
ghost use Rattle.journal.specs.Laws.{sync, prune};
ghost use Rattle.text.specs.Words.{words};
ghost use Rattle.journal_commands.specs.Reading.{said, operate, op_of, by_section, said_append, power_of, said_power, said_damage, said_show, kind_of, said_journal, said_by, no_memory, command, IsRead};

use crate::verbs::Verb;
use crate::{Command, Fault, MAX_UNITS, Operation};
use fields::{Line, number_at};
use std::alloc::Global;

/// What a line says that ends here.
fn alone(line: &mut Line<'_>, operation: Operation) -> Result<Command, fields::Fault>
    ensures { result_map said result ≡ ended (operate (op_of operation)) line.old }
{
    line.end()?;
    Ok(Command::Operation(operation))
}

/// What a `sync` line says.
fn read_sync(line: &mut Line<'_>) -> Result<Command, fields::Fault>
    ensures { result_map said result ≡ by_section sync line.old }
{
    let section = line.number(u64::MAX)?;
    alone(line, Operation::Sync(section))
}

/// What a `prune` line says.
fn read_prune(line: &mut Line<'_>) -> Result<Command, fields::Fault>
    ensures { result_map said result ≡ by_section prune line.old }
{
    let section = line.number(u64::MAX)?;
    alone(line, Operation::Prune(section))
}

/// What an `append` line says.
fn read_append(heap: Global, line: &mut Line<'_>) -> Result<Command, fields::Fault>
    ensures { OrNoMemory no_memory_in (result_map said result) (said_append line.old) }
{
    let section = line.number(u64::MAX)?;
    let bytes = line.bytes(heap)?;
    alone(line, Operation::Append { section, bytes })
}

/// How long the power lasts that the word names.
fn read_stores(word: &[u8]) -> Result<Option<u64>, fields::Fault>
    ensures { result ≡ power_of word.now }
{
    if word == b"on".as_slice() {
        return Ok(None);
    }
    Ok(Some(number_at(word, 1, u64::MAX)?))
}

/// What a `power` line says.
fn read_power(line: &mut Line<'_>) -> Result<Command, fields::Fault>
    ensures { result_map said result ≡ said_power line.old }
{
    let word = line.word()?;
    let stores = read_stores(word)?;
    line.end()?;
    Ok(Command::Power(stores))
}

/// What a `damage` line says.
fn read_damage(line: &mut Line<'_>) -> Result<Command, fields::Fault>
    ensures { result_map said result ≡ said_damage line.old }
{
    let place = line.number(u64::MAX)?;
    let byte = line.number(u64::from(u8::MAX))? as u8;
    line.end()?;
    Ok(Command::Damage { place, byte })
}

/// What a `bytes` line says.
fn read_bytes(line: &mut Line<'_>) -> Result<Command, fields::Fault>
    ensures { result_map said result ≡ said_show line.old }
{
    let from = line.number(u64::MAX)?;
    let count = line.number(u64::MAX)?;
    line.end()?;
    Ok(Command::Show { from, count })
}

/// The kind of a new journal, and how many areas or slots it has.
fn read_kind<'a>(line: &mut Line<'a>) -> Result<(&'a [u8], u64), fields::Fault>
    ensures { result_map (λ p. (p.0.now, p.1)) result ≡ kind_of line.old }
{
    let kind = line.word()?;
    let units = line.number(MAX_UNITS)?;
    line.end()?;
    Ok((kind, units))
}

/// What a `journal` line says.
fn read_journal(line: &mut Line<'_>) -> Result<Command, Fault>
    ensures { result_map said result ≡ said_journal line.old }
{
    let (kind, units) = read_kind(line)?;
    if kind == b"bytes".as_slice() {
        Ok(Command::NewBytes(units))
    } else if kind == b"slots".as_slice() {
        Ok(Command::NewSlots(units))
    } else {
        Err(Fault::Kind)
    }
}

/// What the words behind this verb say.
fn read_by(heap: Global, verb: Verb, line: &mut Line<'_>) -> Result<Command, Fault>
    ensures { OrNoMemory no_memory (result_map said result) (said_by verb line.old) }
{
    let command = match verb {
        Verb::Journal => return read_journal(line),
        Verb::Append => read_append(heap, line)?,
        Verb::Sync => read_sync(line)?,
        Verb::SyncAll => alone(line, Operation::SyncAll)?,
        Verb::Prune => read_prune(line)?,
        Verb::Read => alone(line, Operation::Read)?,
        Verb::Power => read_power(line)?,
        Verb::Cut => alone(line, Operation::Cut)?,
        Verb::Damage => read_damage(line)?,
        Verb::Bytes => read_bytes(line)?,
    };
    Ok(command)
}

/// What a line says, by its first word and the words after it; `None` where the first word is no command of this part.
pub fn read(heap: Global, name: &[u8], args: &[u8]) -> Option<Result<Command, Fault>>
    ensures { IsRead (command name.now (words args.now)) result }
{
    let verb = Verb::named(name)?;
    Some(read_by(heap, verb, &mut Line::new(args)))
}
