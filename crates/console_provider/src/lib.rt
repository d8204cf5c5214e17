//! The console's part for providers: what a command does to the epochs, and what is answered.
#![tactic(auto)]

ghost use Rattle.console_provider.specs.Theorems.{ListsExist, AnswersAgree};

mod answers;
mod lending;
mod printing;
mod replies;
mod trials;

pub use answers::{Answer, Refusal};
pub use trials::Trial;

/// What is answered is the answer over any list that has the epochs: there is one, and over another the answer is the same.
pub fn answers_stand()
    ensures lists { ListsExist }
    ensures agree { AnswersAgree }
{}
