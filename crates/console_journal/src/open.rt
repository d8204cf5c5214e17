//! The journal that is open.
ghost use Rattle.std.specs.Prelude.{◌≡◌};
ghost use Rattle.std.specs.Option.{option_map};
ghost use Rattle.journal_commands.specs.Reading.{op_of};
ghost use Rattle.console_journal.specs.Doing.{Did};
ghost use Rattle.console_journal.specs.Held.{stored_in, fresh, held_of, slots_value, bytes_value, slots_cost, bytes_cost, Stays, OperatedIn, Operated};
ghost use Rattle.console_journal.specs.Obeying.{Damages, Shows, bytes_in};

use crate::looks::{damage, show};
use crate::operations::{on_bytes, on_slots};
use crate::{Answer, Refusal};
use byte_journal::ByteJournal;
use journal_commands::Operation;
use slots::{Slot, SlotJournal};
use std::alloc::Global;

/// What a journal goes on with from one line to the next, beside its medium.
#[derive(Clone, Copy, Debug, PartialEq, Eq)]
pub struct Carried {
    /// The bound: no record is added to a section below it.
    pub bound: u64,
    /// How many stores the power lasts, or `None` for ever.
    pub power: Option<u64>,
}

/// Where the records of a journal lie.
#[derive(Drop)]
pub enum Medium {
    /// A slot for each.
    Slots(Vec<Slot>),
    /// Areas of bytes.
    Bytes(Vec<u8>),
}

impl Medium {
    /// Changes one byte, if there are bytes.
    pub(crate) fn damage(&mut self, place: u64, byte: u8) -> Result<Answer, Refusal>
        ensures { Damages place byte (stored_in self.old) result (stored_in self.new) }
    {
        match self {
            Self::Slots(_) => Err(Refusal::NoBytes),
            Self::Bytes(bytes) => damage(bytes.as_mut_slice(), place, byte),
        }
    }

    /// Shows some bytes, if there are bytes.
    pub(crate) fn show(&self, heap: Global, from: u64, count: u64) -> Result<Answer, Refusal>
        ensures { Shows from count (stored_in self.now) result }
    {
        match self {
            Self::Slots(_) => Err(Refusal::NoBytes),
            Self::Bytes(bytes) => show(heap, bytes.as_slice(), from, count),
        }
    }

    /// The bytes, if there are bytes.
    pub(crate) fn bytes(&self) -> Option<&[u8]>
        ensures { option_map (λ bytes. bytes.now) result ≡ bytes_in (stored_in self.now) }
    {
        match self {
            Self::Slots(_) => None,
            Self::Bytes(bytes) => Some(bytes.as_slice()),
        }
    }
}

/// The journal that is open.
#[derive(Drop)]
pub struct OpenJournal {
    /// Where its records lie.
    pub medium: Medium,
    /// What it goes on with.
    pub carried: Carried,
    /// Whether its medium came from a file, and is kept there.
    pub kept: bool,
}

/// Does the operation on the journal in these slots, and answers.
fn operate_slots(
    heap: Global,
    slots: &mut [Slot],
    carried: &mut Carried,
    operation: &Operation,
) -> Result<Answer, Refusal>
    ensures did { Did (op_of operation.now) (slots_cost (op_of operation.now) slots.old) (slots_value carried.old slots.old) result (slots_value carried.new slots.new) }
    ensures stays { Stays (op_of operation.now) result slots.old slots.new }
{
    let mut journal = SlotJournal::resume(slots, carried.bound, carried.power);
    let answer = on_slots(heap, &mut journal, operation);
    let bound = journal.bound();
    let power = journal.power();
    *carried = Carried { bound, power };
    answer
}

/// Does the operation on the journal in these bytes, and answers.
fn operate_bytes(
    heap: Global,
    bytes: &mut [u8],
    carried: &mut Carried,
    operation: &Operation,
) -> Result<Answer, Refusal>
    ensures did { Did (op_of operation.now) (bytes_cost (op_of operation.now) bytes.old) (bytes_value carried.old bytes.old) result (bytes_value carried.new bytes.new) }
    ensures stays { Stays (op_of operation.now) result bytes.old bytes.new }
{
    let mut journal = ByteJournal::resume(bytes, carried.bound, carried.power);
    let answer = on_bytes(heap, &mut journal, operation);
    let bound = journal.bound();
    let power = journal.power();
    *carried = Carried { bound, power };
    answer
}

/// Does the operation on the journal in this medium, and answers.
fn operate_in(
    heap: Global,
    medium: &mut Medium,
    carried: &mut Carried,
    operation: &Operation,
) -> Result<Answer, Refusal>
    ensures { OperatedIn (op_of operation.now) (stored_in medium.old) carried.old result (stored_in medium.new) carried.new }
{
    match medium {
        Medium::Slots(slots) => operate_slots(heap, slots.as_mut_slice(), carried, operation),
        Medium::Bytes(bytes) => operate_bytes(heap, bytes.as_mut_slice(), carried, operation),
    }
}

impl OpenJournal {
    /// The journal in this medium, with no bound and with power for ever.
    pub(crate) fn new(medium: Medium, kept: bool) -> Self
        ensures { held_of result ≡ record { stored = stored_in medium; carried = fresh; kept = kept } }
    {
        Self {
            medium,
            carried: Carried {
                bound: 0,
                power: None,
            },
            kept,
        }
    }

    /// Does the operation on the journal, and answers.
    pub(crate) fn operate(&mut self, heap: Global, operation: &Operation) -> Result<Answer, Refusal>
        ensures { Operated (op_of operation.now) (held_of self.old) result (held_of self.new) }
    {
        let mut carried = self.carried;
        let answer = operate_in(heap, &mut self.medium, &mut carried, operation);
        self.carried = carried;
        answer
    }
}
