//! The epochs so far, and the provider that answers about them.
ghost use Rattle.std.specs.Prelude.{◌≡◌, true, [], map, is_ok, if◌then◌else◌};
ghost use Rattle.fields.specs.Results.{result_map, OrNoMemory};
ghost use Rattle.trial.specs.Faults.{sound as faultless};
ghost use Rattle.console_provider.specs.Lending.{lent};

use crate::lending::{check_added, lend_all, list};
use crate::replies::reply;
use crate::{Answer, Refusal};
use listed::ListedProvider;
use pooled::PooledProvider;
use provider_commands::{Command, Kind, Question, SignerSet, read};
use std::alloc::Global;
use types::Epoch;

/// The epochs of a trial, and the provider that answers about them.
#[derive(Drop)]
pub struct Trial {
    /// The provider.
    kind: Kind,
    /// The signers of each epoch.
    sets: Vec<SignerSet>,
    ghost sound: { faultless (map lent sets.items) ≡ true },
}

impl Trial {
    ghost use Rattle.provider_commands.specs.Reading.{said, adds, asks, query, command};
    ghost use Rattle.provider_commands.specs.Sets.{given};
    ghost use Rattle.text.specs.Words.{words};
    ghost use Rattle.console_provider.specs.Doing.{next, after, Answered, Taken};
    ghost use Rattle.console_provider.specs.Trials.{held, none};

    /// A trial of no epochs, with the provider that lists signatures.
    pub fn new(heap: Global) -> Self
        ensures { held result ≡ none }
    {
        Self {
            kind: Kind::Listed,
            sets: Vec::new(heap),
        }
    }

    /// Adds the signers of an epoch behind those of the others.
    fn add(&mut self, heap: Global, set: SignerSet) -> Result<Answer, Refusal>
        ensures trial { held self.new ≡ (if is_ok result then next (adds (given set)) (held self.old) else held self.old) }
        ensures answer { Answered (adds (given set)) (held self.old) result }
    {
        check_added(heap, &self.sets, &set)?;
        let signers = set.keys.len();
        let answer = Answer::Known {
            epoch: set.epoch,
            signers,
            faults: tips::max_faults(signers),
            quorum: tips::quorum(signers),
            own: set.me,
        };
        self.sets.push(set)?;
        Ok(answer)
    }

    /// What the provider replies to a question.
    fn ask(&self, heap: Global, epoch: Epoch, question: &Question) -> Result<Answer, Refusal>
        ensures { Answered (asks epoch.0 (query question.now)) (held self.now) result }
    {
        let sets = lend_all(heap, &self.sets)?;
        let epochs = list(&sets);
        match self.kind {
            Kind::Listed => reply(heap, &ListedProvider::new(epochs), epoch, question),
            Kind::Pooled => reply(heap, &PooledProvider::new(epochs), epoch, question),
        }
    }

    /// Does what the command says, and answers.
    pub fn obey(&mut self, heap: Global, command: Command) -> Result<Answer, Refusal>
        ensures trial { held self.new ≡ (if is_ok result then next (said command) (held self.old) else held self.old) }
        ensures answer { Answered (said command) (held self.old) result }
    {
        match command {
            Command::Provider(kind) => {
                self.kind = kind;
                self.sets.clear();
                Ok(Answer::Chosen(kind))
            }
            Command::EpochSet(set) => self.add(heap, set),
            Command::Ask(epoch, question) => self.ask(heap, epoch, &question),
        }
    }

    /// Does what a line says, by its first word and the words after it, and answers; `None` where the first word is no command of this part.
    pub fn take(
        &mut self,
        heap: Global,
        name: &[u8],
        args: &[u8],
    ) -> Option<Result<Answer, Refusal>>
        ensures trial { held self.new ≡ after (command name.now (words args.now)) result (held self.old) }
        ensures answer { Taken (command name.now (words args.now)) (held self.old) result }
    {
        let command = match read(heap, name, args)? {
            Ok(command) => command,
            Err(fault) => return Some(Err(Refusal::Words(fault))),
        };
        Some(self.obey(heap, command))
    }
}
