//! The words of a line, taken one by one.
ghost use Rattle.std.specs.Prelude.{◌≡◌, IfOk, vec_items};
ghost use Rattle.fields.specs.Fields.{word_in, number_in, array_in, bytes_in, few_bytes_in};
ghost use Rattle.fields.specs.Lines.{line_of, behind, next, ended};
ghost use Rattle.fields.specs.Results.{result_map, no_memory, OrNoMemory};
ghost use Rattle.text.specs.Words.{words};

use crate::{Fault, array_at, bytes_at, bytes_up_to, number_at};
use std::alloc::Global;
use std::marker::Model;
use text::Words;
use types::Bytes;

/// The words of a line behind its command, from the first that is not taken yet.
#[derive(Drop)]
pub struct Line<'a> {
    /// The words that are left.
    words: Words<'a>,
    /// The place of the first of them.
    place: usize,
}

impl<'a> Model for Line<'a> {
    ghost use Rattle.std.specs.Prelude.{◌+◌, ◌^◌, ◌<◌, length};
    ghost use Rattle.fields.specs.Lines.{Left};

    ghost Value = { Left };

    ghost view = { λ l. record { words = l.words; place = l.place } };

    ghost invariant = { λ l. l.place + length l.words < 2 ^ 64 };
}

impl<'a> Line<'a> {
    /// The words behind the command.
    pub fn new(args: &'a [u8]) -> Self
        ensures { result ≡ line_of (words args.now) }
    {
        Self {
            words: Words::new(args),
            place: 1,
        }
    }

    /// Takes the next word, and says its place.
    fn next(&mut self) -> Result<(&'a [u8], usize), Fault>
        ensures word { result_map (λ p. p.0.now) result ≡ next word_in self.old }
        ensures place { IfOk result (λ p. p.1 ≡ self.old.place) }
        ensures left { self.new ≡ behind self.old }
    {
        let place = self.place;
        let word = self.words.next().ok_or(Fault::Missing { place })?;
        self.place += 1;
        Ok((word, place))
    }

    /// Takes the next word.
    pub fn word(&mut self) -> Result<&'a [u8], Fault>
        ensures word { result_map (λ word. word.now) result ≡ next word_in self.old }
        ensures left { self.new ≡ behind self.old }
    {
        let (word, _) = self.next()?;
        Ok(word)
    }

    /// Takes the next word, which spells a number up to `most`.
    pub fn number(&mut self, most: u64) -> Result<u64, Fault>
        ensures number { result ≡ next (number_in most) self.old }
        ensures left { self.new ≡ behind self.old }
    {
        let (word, place) = self.next()?;
        number_at(word, place, most)
    }

    /// Takes the next word, which spells a string of `N` bytes.
    pub fn array<K, const N: usize>(&mut self) -> Result<Bytes<K, N>, Fault>
        ensures bytes { result_map (λ string. string.bytes) result ≡ next (array_in N) self.old }
        ensures left { self.new ≡ behind self.old }
    {
        let (word, place) = self.next()?;
        array_at(word, place)
    }

    /// Takes the next word, which spells bytes.
    pub fn bytes(&mut self, heap: Global) -> Result<Vec<u8>, Fault>
        ensures bytes { OrNoMemory no_memory (result_map vec_items result) (next bytes_in self.old) }
        ensures left { self.new ≡ behind self.old }
    {
        let (word, place) = self.next()?;
        bytes_at(heap, word, place)
    }

    /// Takes the next word, which spells at most `most` bytes.
    pub fn bytes_up_to(&mut self, heap: Global, most: usize) -> Result<Vec<u8>, Fault>
        ensures bytes { OrNoMemory no_memory (result_map vec_items result) (next (few_bytes_in most) self.old) }
        ensures left { self.new ≡ behind self.old }
    {
        let (word, place) = self.next()?;
        bytes_up_to(heap, word, place, most)
    }

    /// Whether no word is left; one that is left is taken.
    pub fn end(&mut self) -> Result<(), Fault>
        ensures answer { result ≡ ended tt self.old }
        ensures left { self.new ≡ behind self.old }
    {
        match self.next() {
            Ok((_, place)) => Err(Fault::TooMany { place }),
            Err(_) => Ok(()),
        }
    }
}
