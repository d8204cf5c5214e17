//! The seats of the signers, with the safe tip of the tips that they have told.
ghost use Rattle.std.specs.Prelude.{◌≡◌, ◌<◌, true, [], length, is_ok, if◌then◌else◌, Ok, MatchOption, ◌==◌, nat_lt};
ghost use Rattle.table.specs.Keys.{ahead};
ghost use Rattle.table.specs.Rows.{at};
ghost use Rattle.tip_commands.specs.Order.{ascends};
ghost use Rattle.tips.specs.Ranks.{Safe};
ghost use Rattle.tips.specs.Seats.{tips_of, opened, reseated, seated_after, lower_than};
ghost use Rattle.tips.specs.Tips.{Holds, Sized};

use crate::{Answer, Refusal};
use arrayvec::ArrayVec;
use table::Entry;
use tip_commands::{Command, KeySet};
use tips::{MAX_SIGNERS, SafeTip, SetSize, max_faults, quorum};
use types::{Height, Participant};

/// The seats of the signers, and the tables that find their safe tip.
#[derive(Drop)]
pub struct Board {
    /// The seats that are taken; none before the first set.
    seats: ArrayVec<Entry<Participant, Height>, MAX_SIGNERS>,
    /// The tables of the tips that the seats record.
    tables: SafeTip,
    ghost ascending: { ascends seats.items ≡ true },
    ghost holds: { Holds seats.items tables },
}

impl Board {
    ghost use Rattle.tip_commands.specs.Reading.{said, signers, tells};
    ghost use Rattle.tip_commands.specs.Sets.{seats_of, keys_of};
    ghost use Rattle.console_tips.specs.Boards.{sitting};
    ghost use Rattle.console_tips.specs.Doing.{fits, sat, after, answer, shown_tip, Shows};

    /// A board before the first set of signers.
    pub fn new() -> Self
        ensures { sitting result ≡ [] }
    {
        Self {
            seats: ArrayVec::new(),
            tables: SafeTip::new(),
        }
    }

    /// The safe tip, or `None` before the first set of signers.
    pub fn safe_tip(&self) -> Option<Height>
        ensures { MatchOption result (sitting self.now ≡ []) (λ t. Safe (tips_of (sitting self.now)) t.0) }
    {
        self.tables.get()
    }

    /// The safe tip of a board with signers.
    fn tip(&self) -> Height
        requires { 0 < length (sitting self.now) }
        ensures { Safe (tips_of (sitting self.now)) result.0 }
    {
        self.safe_tip().unwrap()
    }

    /// Seats the first set of signers.
    fn open(&mut self, set: &KeySet) -> Result<(), SetSize>
        requires { sitting self.old ≡ [] }
        ensures answer { Sized (nat_lt 0 (length (seats_of set.now))) 0 (length (seats_of set.now)) result }
        ensures seats { sitting self.new ≡ (if is_ok result then opened (keys_of (seats_of set.now)) else []) }
    {
        let mut seats = ArrayVec::new();
        for &key in set.keys() {
            seats.push(Entry {
                key,
                value: Height::zero(),
            });
        }
        self.tables.init(&mut seats, set.keys())?;
        self.seats = seats;
        Ok(())
    }

    /// Changes the set of signers.
    fn change(&mut self, set: &KeySet) -> Result<(), SetSize>
        ensures answer { Sized (length (seats_of set.now) == length (sitting self.old)) (length (sitting self.old)) (length (seats_of set.now)) result }
        ensures seats { sitting self.new ≡ (if is_ok result then reseated ahead (keys_of (seats_of set.now)) (sitting self.old) else sitting self.old) }
        ensures as_many { length (sitting self.new) ≡ length (sitting self.old) }
    {
        self.tables.reconcile(&mut self.seats, set.keys())
    }

    /// Seats a set of signers, the first or a later one.
    fn place(&mut self, set: &KeySet) -> Result<(), SetSize>
        ensures answer { Sized (fits (seats_of set.now) (sitting self.old)) (length (sitting self.old)) (length (seats_of set.now)) result }
        ensures seats { sitting self.new ≡ (if is_ok result then sat (seats_of set.now) (sitting self.old) else sitting self.old) }
    {
        if self.seats.is_empty() {
            self.open(set)
        } else {
            self.change(set)
        }
    }

    /// Takes a tip that a signer tells: the old one where it counts.
    fn update(&mut self, key: Participant, height: Height) -> Option<Height>
        ensures answer { result ≡ lower_than height (at ahead key (sitting self.old)) }
        ensures seats { sitting self.new ≡ seated_after ahead key height result (sitting self.old) }
        ensures as_many { length (sitting self.new) ≡ length (sitting self.old) }
    {
        self.tables.update(&mut self.seats, &key, height)
    }

    /// Seats a set of signers, and answers.
    fn seat(&mut self, set: &KeySet) -> Result<Answer, Refusal>
        ensures seats { sitting self.new ≡ after (signers (seats_of set.now)) (sitting self.old) }
        ensures answer { result ≡ answer (signers (seats_of set.now)) (sitting self.old) (shown_tip result) }
        ensures safe { Shows (sitting self.new) result }
    {
        self.place(set)?;
        let signers = set.keys().len();
        Ok(Answer::Seated {
            signers,
            faults: max_faults(signers),
            quorum: quorum(signers),
            tip: self.tip(),
        })
    }

    /// Takes a tip that a signer tells, and answers.
    fn tell(&mut self, key: Participant, height: Height) -> Result<Answer, Refusal>
        ensures seats { sitting self.new ≡ after (tells key height) (sitting self.old) }
        ensures answer { result ≡ answer (tells key height) (sitting self.old) (shown_tip result) }
        ensures safe { Shows (sitting self.new) result }
    {
        if self.seats.is_empty() {
            return Err(Refusal::NoSigners);
        }
        let replaced = self.update(key, height);
        let tip = self.tip();
        match replaced {
            Some(was) => Ok(Answer::Counted { was, tip }),
            None => Ok(Answer::NotCounted { tip }),
        }
    }

    /// Does what the command says, and answers.
    pub fn obey(&mut self, command: Command) -> Result<Answer, Refusal>
        ensures seats { sitting self.new ≡ after (said (Ok command)) (sitting self.old) }
        ensures answer { result ≡ answer (said (Ok command)) (sitting self.old) (shown_tip result) }
        ensures safe { Shows (sitting self.new) result }
    {
        match command {
            Command::Signers(set) => self.seat(&set),
            Command::Tip(key, height) => self.tell(key, height),
        }
    }
}
