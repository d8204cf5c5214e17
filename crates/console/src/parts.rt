//! The parts of a console, and which of them takes a command.
ghost use Rattle.std.specs.Prelude.{◌≡◌, Some, None};
ghost use Rattle.console_journal.specs.Obeying.{held};
ghost use Rattle.fields.specs.Results.{result_map};
ghost use Rattle.text.specs.Words.{words};
ghost use Rattle.console.specs.Heard.{by_name, after, Replied, Journaled};
ghost use Rattle.console.specs.States.{first, state_of};

use crate::{Answer, Refused};
use console_journal::Journals;
use console_provider::Trial;
use console_tips::Board;
use std::alloc::Global;

/// The parts that take commands.
#[derive(Drop)]
pub struct Parts {
    /// Where the bytes that a line spells are kept.
    heap: Global,
    /// The part for signers and tips.
    pub(crate) board: Board,
    /// The part for providers.
    trial: Trial,
    /// The part for journals.
    pub(crate) journals: Journals,
}

impl Parts {
    /// The parts before the first command.
    pub(crate) fn new(heap: Global) -> Self
        ensures state { state_of result ≡ first }
        ensures journal { held result.journals ≡ None }
    {
        Self {
            heap,
            board: Board::new(),
            trial: Trial::new(heap),
            journals: Journals::default(),
        }
    }

    /// Does what the command of this name says with these words, and answers.
    pub(crate) fn obey<'a>(&mut self, name: &'a [u8], args: &[u8]) -> Result<Answer, Refused<'a>>
        ensures state { state_of self.new ≡ after (by_name name.now (words args.now)) (result_map Some result) (state_of self.old) }
        ensures reply { Replied (by_name name.now (words args.now)) (state_of self.old) (state_of self.new) (result_map Some result) }
        ensures journal { Journaled (by_name name.now (words args.now)) (held self.old.journals) (held self.new.journals) (result_map Some result) }
    {
        if let Some(command) = tip_commands::read(name, args) {
            let answer = self.board.obey(command?)?;
            return Ok(Answer::Tips(answer));
        }
        if let Some(answer) = console_forms::read(self.heap, name, args) {
            return Ok(Answer::Forms(answer?));
        }
        if let Some(answer) = self.trial.take(self.heap, name, args) {
            return Ok(Answer::Providers(answer?));
        }
        if let Some(answer) = self.journals.take(self.heap, name, args) {
            return Ok(Answer::Journals(answer?));
        }
        Err(Refused::Unknown(name))
    }
}
