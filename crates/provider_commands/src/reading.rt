//! What a line says: a provider, the signers of an epoch, a question about one, or none of these.
ghost use Rattle.std.specs.Prelude.{◌≡◌, ◌<◌, [], ◌==◌, length, map, IfSome, position};
ghost use Rattle.fields.specs.Results.{result_map, no_memory, OrNoMemory};
ghost use Rattle.provider.specs.Values.{attested, key_bytes, number};
ghost use Rattle.text.specs.Words.{words};
ghost use Rattle.provider_commands.specs.Reading.{key_in, keys_from, own_in, attestation_in, attestations_from, said, said_provider, said_set, said_sign, said_accepts, said_assemble, said_certificate, command, out_of_memory, Reads};

use crate::{Command, Fault, Kind, Question, SignerSet};
use fields::Fault::Missing;
use fields::{Line, array_at, number_at};
use provider::Attestation;
use std::alloc::Global;
use text::{Words, split_word};
use types::{Epoch, Height, Participant, PublicKey};

/// The key that the word at `place` spells: 32 bytes in hex, or `k` and the last byte of a key that is zero before it.
fn key_at(word: &[u8], place: usize) -> Result<PublicKey, Fault>
    ensures { result_map (λ key. key.bytes) result ≡ key_in place word.now }
{
    let [b'k', digits @ ..] = word else {
        return Ok(array_at(word, place)?);
    };
    let mut bytes = [0; 32];
    bytes[31] = number_at(digits, place, 255)? as u8;
    Ok(PublicKey::new(bytes))
}

/// The own signer that the second word spells.
fn own_at(word: &[u8]) -> Result<Option<Participant>, Fault>
    ensures { result_map number result ≡ own_in word.now }
{
    if word == b"me=none".as_slice() {
        return Ok(None);
    }
    let [b'm', b'e', b'=', digits @ ..] = word else {
        return Err(Fault::NoOwn);
    };
    Ok(Some(Participant::new(number_at(digits, 2, u64::MAX)?)))
}

/// The place of the first colon.
fn colon(word: &[u8]) -> Option<usize>
    ensures value { result ≡ position (λ c. c == 58) word.now }
    ensures within { IfSome result (λ place. place < length word.now) }
{
    word.iter().position(|byte| *byte == b':')
}

/// The signer and its signature that the word at `place` spells, with a colon between.
fn attestation_at(word: &[u8], place: usize) -> Result<Attestation, Fault>
    ensures { result_map attested result ≡ attestation_in place word.now }
{
    let colon = colon(word).ok_or(Fault::NoSignature { place })?;
    let signer = number_at(&word[..colon], place, u64::MAX)?;
    let signature = array_at(&word[colon + 1..], place)?;
    Ok(Attestation {
        signer: Participant::new(signer),
        signature,
    })
}

/// The keys that the words from the third one on spell.
fn read_keys(heap: Global, args: &[u8]) -> Result<Vec<PublicKey>, Fault>
    ensures { OrNoMemory out_of_memory (result_map (λ keys. key_bytes keys.items) result) (keys_from [] (words args.now)) }
{
    let mut keys = Vec::new(heap);
    for word in Words::new(args) {
        let key = key_at(word, keys.len() + 3)?;
        keys.push(key)?;
    }
    Ok(keys)
}

/// The signatures that the words from the second one on spell.
fn read_attestations(heap: Global, args: &[u8]) -> Result<Vec<Attestation>, Fault>
    ensures { OrNoMemory out_of_memory (result_map (λ attestations. map attested attestations.items) result) (attestations_from [] (words args.now)) }
{
    let mut attestations = Vec::new(heap);
    for word in Words::new(args) {
        let attestation = attestation_at(word, attestations.len() + 2)?;
        attestations.push(attestation)?;
    }
    Ok(attestations)
}

/// What a `provider` line says.
fn read_provider(mut line: Line<'_>) -> Result<Command, Fault>
    ensures { result_map said result ≡ said_provider line.entry }
{
    let name = line.word()?;
    line.end()?;
    if name == b"listed".as_slice() {
        Ok(Command::Provider(Kind::Listed))
    } else if name == b"pooled".as_slice() {
        Ok(Command::Provider(Kind::Pooled))
    } else {
        Err(Fault::NoKind)
    }
}

/// What an `epoch-set` line says.
fn read_set(heap: Global, args: &[u8]) -> Result<Command, Fault>
    ensures { OrNoMemory out_of_memory (result_map said result) (said_set (words args.now)) }
{
    let (epoch, rest) = split_word(args).ok_or(Missing { place: 1 })?;
    let epoch = Epoch::new(number_at(epoch, 1, u64::MAX)?);
    let (me, rest) = split_word(rest).ok_or(Missing { place: 2 })?;
    let me = own_at(me)?;
    let keys = read_keys(heap, rest)?;
    Ok(Command::EpochSet(SignerSet { epoch, me, keys }))
}

/// What a `sign` line says.
fn read_sign(mut line: Line<'_>) -> Result<Command, fields::Fault>
    ensures { result_map said result ≡ said_sign line.entry }
{
    let epoch = Epoch::new(line.number(u64::MAX)?);
    let height = Height::new(line.number(u64::MAX)?);
    let digest = line.array()?;
    line.end()?;
    Ok(Command::Ask(epoch, Question::Sign { height, digest }))
}

/// What an `accepts` line says.
fn read_accepts(heap: Global, mut line: Line<'_>) -> Result<Command, fields::Fault>
    ensures { OrNoMemory no_memory (result_map said result) (said_accepts line.entry) }
{
    let epoch = Epoch::new(line.number(u64::MAX)?);
    let question = Question::Accepts {
        signer: Participant::new(line.number(u64::MAX)?),
        height: Height::new(line.number(u64::MAX)?),
        digest: line.array()?,
        signature: line.bytes(heap)?,
    };
    line.end()?;
    Ok(Command::Ask(epoch, question))
}

/// What an `assemble` line says.
fn read_assemble(heap: Global, args: &[u8]) -> Result<Command, Fault>
    ensures { OrNoMemory out_of_memory (result_map said result) (said_assemble (words args.now)) }
{
    let (epoch, rest) = split_word(args).ok_or(Missing { place: 1 })?;
    let epoch = Epoch::new(number_at(epoch, 1, u64::MAX)?);
    let attestations = read_attestations(heap, rest)?;
    Ok(Command::Ask(epoch, Question::Assemble(attestations)))
}

/// What an `accepts-certificate` line says.
fn read_certificate(heap: Global, mut line: Line<'_>) -> Result<Command, fields::Fault>
    ensures { OrNoMemory no_memory (result_map said result) (said_certificate line.entry) }
{
    let epoch = Epoch::new(line.number(u64::MAX)?);
    let question = Question::AcceptsCertificate {
        height: Height::new(line.number(u64::MAX)?),
        digest: line.array()?,
        certificate: line.bytes(heap)?,
    };
    line.end()?;
    Ok(Command::Ask(epoch, question))
}

/// What a line says, by its first word and the words after it; `None` where the first word is no command of this part.
pub fn read(heap: Global, name: &[u8], args: &[u8]) -> Option<Result<Command, Fault>>
    ensures { Reads result (command name.now (words args.now)) }
{
    if name == b"provider".as_slice() {
        Some(read_provider(Line::new(args)))
    } else if name == b"epoch-set".as_slice() {
        Some(read_set(heap, args))
    } else if name == b"sign".as_slice() {
        Some(read_sign(Line::new(args)).map_err(Fault::Word))
    } else if name == b"accepts".as_slice() {
        Some(read_accepts(heap, Line::new(args)).map_err(Fault::Word))
    } else if name == b"assemble".as_slice() {
        Some(read_assemble(heap, args))
    } else if name == b"accepts-certificate".as_slice() {
        Some(read_certificate(heap, Line::new(args)).map_err(Fault::Word))
    } else {
        None
    }
}
