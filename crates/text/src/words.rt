//! The words of a line: what stands between spaces and tabs.
ghost use Rattle.std.specs.Prelude.{◌≡◌, ◌≤◌, ◌||◌, ℕ, List, length, take_while, position};
ghost use Rattle.std.specs.Iterator.{YieldsFirstRef, item_count};
ghost use Rattle.std.specs.Iterator.Runs.{YieldsRefsInOrder};
ghost use Rattle.text.specs.Words.{blank, in_word, words, Splits};

use std::marker::Model;

/// Whether the byte separates words: a space or a tab.
fn is_blank(byte: u8) -> bool
    ensures { result ≡ blank byte }
{
    byte == b' ' || byte == b'\t'
}

/// The place of the first byte of a word; `None` where the line has no word.
fn word_start(line: &[u8]) -> Option<usize>
    ensures { result ≡ position in_word line.now }
{
    line.iter().position(|byte| !is_blank(*byte))
}

/// How many bytes stand in front of the first blank.
fn word_len(line: &[u8]) -> usize
    ensures { result ≡ length (take_while in_word line.now) }
{
    line.iter().take_while(|byte| !is_blank(**byte)).count()
}

/// The first word of the line and what follows it; `None` where the line has no word.
pub fn split_word(line: &[u8]) -> Option<(&[u8], &[u8])>
    ensures { Splits line.now result }
{
    let rest = &line[word_start(line)?..];
    let end = word_len(rest);
    Some((&rest[..end], &rest[end..]))
}

/// The words of a line, from the first to the last.
#[derive(Drop)]
pub struct Words<'a> {
    /// The line behind the words that were given.
    rest: &'a [u8],
}

impl<'a> Model for Words<'a> {
    ghost Value = { List (List ℕ) };

    ghost view = { λ w. words w.rest.now };
}

impl<'a> Words<'a> {
    /// The words of the line.
    pub fn new(line: &'a [u8]) -> Self
        ensures value { result ≡ words line.now }
        ensures within { length result ≤ length line.now }
        ensures runs { YieldsRefsInOrder (YieldsFirstRef {A = List ℕ} (λ rest. rest)) (λ rest. rest) }
    {
        Self { rest: line }
    }
}

impl<'a> Iterator for Words<'a> {
    type Item = &'a [u8];

    ghost next_gives = { YieldsFirstRef (λ rest. rest) };

    ghost remaining = { item_count (λ rest. rest) };

    fn next(&mut self) -> Option<&'a [u8]> {
        let (word, rest) = split_word(self.rest)?;
        self.rest = rest;
        Some(word)
    }
}

/// How many words the line has.
pub fn count_words(line: &[u8]) -> usize
    ensures value { result ≡ length (words line.now) }
    ensures within { result ≤ length line.now }
{
    Words::new(line).count()
}
