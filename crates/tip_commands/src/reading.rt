//! What a line says: a set of signers, a tip, or neither.
ghost use Rattle.std.specs.Prelude.{◌≡◌, ◌≤◌, [], length, IfOk};
ghost use Rattle.std.specs.Option.{option_map};
ghost use Rattle.text.specs.Words.{words};
ghost use Rattle.tip_commands.specs.Reading.{tally, enrol as enrolled, set_of, said, said_tip, command};
ghost use Rattle.tip_commands.specs.Sets.{seats_read};

use crate::{Command, Fault, KeySet, MAX_KEYS, MIN_KEYS};
use text::{Words, count_words, number};
use types::{Height, Participant};

/// How many numbers the words are; every word has to be one.
fn count_numbers(args: &[u8]) -> Result<usize, Fault>
    ensures value { result ≡ tally 0 (words args.now) }
    ensures all { IfOk result (λ count. count ≡ length (words args.now)) }
{
    // kept: counted by hand, so that one walk over the words tells how many they are and the first that is no number
    let mut count = 0;
    for word in Words::new(args) {
        count += 1;
        if number(word).is_none() {
            return Err(Fault::NoNumber(count));
        }
    }
    Ok(count)
}

/// The set of the keys that the words are.
fn enrol(args: &[u8]) -> Result<KeySet, Fault>
    requires { length (words args.now) ≤ 16 }
    ensures { seats_read result ≡ enrolled [] (words args.now) }
{
    let mut set = KeySet::new();
    for word in Words::new(args) {
        let key = number(word).ok_or(Fault::NoNumber(set.keys().len() + 1))?;
        set.add(Participant::new(key))?;
    }
    Ok(set)
}

/// The set of a `signers` line.
fn read_signers(args: &[u8]) -> Result<KeySet, Fault>
    ensures { seats_read result ≡ set_of (words args.now) }
{
    let count = count_numbers(args)?;
    if !(MIN_KEYS..=MAX_KEYS).contains(&count) {
        return Err(Fault::KeyCount(count));
    }
    enrol(args)
}

/// What a `tip` line says.
fn read_tip(args: &[u8]) -> Result<Command, Fault>
    ensures { said result ≡ said_tip (words args.now) }
{
    let mut words = Words::new(args);
    let (Some(key), Some(height), None) = (words.next(), words.next(), words.next()) else {
        return Err(Fault::TipWords(count_words(args)));
    };
    let key = number(key).ok_or(Fault::NoNumber(1))?;
    let height = number(height).ok_or(Fault::NoNumber(2))?;
    Ok(Command::Tip(Participant::new(key), Height::new(height)))
}

/// What a line says, by its first word and the words after it; `None` where the first word is no command of this part.
pub fn read(name: &[u8], args: &[u8]) -> Option<Result<Command, Fault>>
    ensures { option_map said result ≡ command name.now (words args.now) }
{
    if name == b"signers".as_slice() {
        Some(read_signers(args).map(Command::Signers))
    } else if name == b"tip".as_slice() {
        Some(read_tip(args))
    } else {
        None
    }
}
