//! The console: it takes lines one by one, and counts what they did.
ghost use Rattle.std.specs.Prelude.{◌≡◌, true, [], length, None, is_err, MatchOption};
ghost use Rattle.std.specs.Option.{option_map};
ghost use Rattle.console_journal.specs.Obeying.{held, areas_in, Loads, kept_bytes};
ghost use Rattle.console_tips.specs.Boards.{sitting};
ghost use Rattle.tips.specs.Ranks.{Safe};
ghost use Rattle.tips.specs.Seats.{tips_of};
ghost use Rattle.console.specs.Counters.{none, counted_in, with_line, with_refusal};
ghost use Rattle.console.specs.Heard.{heard, after, Replied, Journaled};
ghost use Rattle.console.specs.States.{first, state_of};

use crate::parts::Parts;
use crate::{Answer, Counts, Refused, Summary};
use console_journal::Refusal;
use std::alloc::Global;
use text::split_word;

/// A console: its parts, and what it has seen so far.
#[derive(Drop)]
pub struct Console {
    /// The parts that take commands.
    parts: Parts,
    /// How many lines did what.
    counts: Counts,
}

/// What is replied to a line, and done by a part: nothing for a comment or a line without a word.
fn reply<'a>(parts: &mut Parts, line: &'a [u8]) -> Result<Option<Answer>, Refused<'a>>
    ensures state { state_of parts.new ≡ after (heard line.now) result (state_of parts.old) }
    ensures reply { Replied (heard line.now) (state_of parts.old) (state_of parts.new) result }
    ensures journal { Journaled (heard line.now) (held parts.old.journals) (held parts.new.journals) result }
{
    if line.first() == Some(&b'#') {
        return Ok(None);
    }
    let Some((name, args)) = split_word(line) else {
        return Ok(None);
    };
    let answer = parts.obey(name, args)?;
    Ok(Some(answer))
}

impl Console {
    /// A console that has seen nothing.
    pub fn new(heap: Global) -> Self
        ensures parts { state_of result.parts ≡ first }
        ensures journal { held result.parts.journals ≡ None }
        ensures counts { result.counts ≡ none }
    {
        Self {
            parts: Parts::new(heap),
            counts: Counts::default(),
        }
    }

    /// Takes a line, and says what it did: nothing, an answer, or why it was refused.
    pub fn take<'a>(&mut self, line: &'a [u8]) -> Result<Option<Answer>, Refused<'a>>
        ensures state { state_of self.new.parts ≡ after (heard line.now) result (state_of self.old.parts) }
        ensures reply { Replied (heard line.now) (state_of self.old.parts) (state_of self.new.parts) result }
        ensures journal { Journaled (heard line.now) (held self.old.parts.journals) (held self.new.parts.journals) result }
        ensures counts { self.new.counts ≡ counted_in result self.old.counts }
    {
        let reply = reply(&mut self.parts, line);
        self.counts = self.counts.with(&reply);
        reply
    }

    /// Takes a line that opens the journal in a file which holds these bytes: how many areas the journal has.
    pub fn load(&mut self, bytes: Vec<u8>) -> Result<u64, Refusal>
        ensures journal { Loads bytes.items (areas_in (length bytes.items)) (held self.old.parts.journals) result (held self.new.parts.journals) }
        ensures state { state_of self.new.parts ≡ state_of self.old.parts }
        ensures counts { self.new.counts ≡ with_line (is_err result) self.old.counts }
    {
        let loaded = self.parts.journals.load(bytes);
        self.counts = self.counts.with_line(loaded.is_err());
        loaded
    }

    /// Counts a line that was refused before it came to the console.
    pub fn refuse(&mut self)
        ensures parts { self.new.parts ≡ self.old.parts }
        ensures counts { self.new.counts ≡ with_line true self.old.counts }
    {
        self.counts = self.counts.with_line(true);
    }

    /// The bytes of the journal that is open, if it was loaded.
    pub fn kept_bytes(&self) -> Option<&[u8]>
        ensures { option_map (λ bytes. bytes.now) result ≡ kept_bytes (held self.now.parts.journals) }
    {
        self.parts.journals.kept_bytes()
    }

    /// Closes the journal that is open, where what the last line did to it could not be kept; that line is refused after all.
    pub fn lose_journal(&mut self)
        ensures journal { held self.new.parts.journals ≡ None }
        ensures state { state_of self.new.parts ≡ state_of self.old.parts }
        ensures counts { self.new.counts ≡ with_refusal self.old.counts }
    {
        self.parts.journals.close();
        self.counts = self.counts.with_refusal();
    }

    /// What the console has seen so far.
    pub fn summary(&self) -> Summary
        ensures counts { result.counts ≡ self.now.counts }
        ensures tip { MatchOption result.safe_tip (sitting self.now.parts.board ≡ []) (λ t. Safe (tips_of (sitting self.now.parts.board)) t.0) }
    {
        Summary {
            counts: self.counts,
            safe_tip: self.parts.board.safe_tip(),
        }
    }
}
