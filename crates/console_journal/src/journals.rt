//! The journals' part of the console.
ghost use Rattle.std.specs.Prelude.{◌≡◌, None, length};
ghost use Rattle.std.specs.Option.{option_map};
ghost use Rattle.fields.specs.Results.{result_map};
ghost use Rattle.text.specs.Words.{words};
ghost use Rattle.journal_commands.specs.Reading.{command, said, op_of, new_bytes, new_slots, operate, power, damage, show};
ghost use Rattle.console_journal.specs.Obeying.{held, Obeys, Answered, Taken, areas_in, Loads, kept_bytes};

use crate::open::{Medium, OpenJournal};
use crate::{Answer, Refusal};
use areas::AREA;
use journal_commands::{Command, Fault, MAX_UNITS, Operation, read};
use slots::Slot;
use std::alloc::Global;

/// The journal that is open, if one is.
#[derive(Default, Drop)]
pub struct Journals {
    open: Option<OpenJournal>,
}

/// The areas of a medium of so many bytes: 1 to 1,024, and nothing behind them.
fn count_areas(len: usize) -> Option<u64>
    ensures { result ≡ areas_in len }
{
    let areas = (len / AREA) as u64;
    (len % AREA == 0 && (1..=MAX_UNITS).contains(&areas)).then_some(areas)
}

impl Journals {
    /// Opens a new byte journal.
    fn open_bytes(&mut self, heap: Global, areas: u64) -> Result<Answer, Refusal>
        ensures { Obeys (new_bytes areas) (held self.old) result (held self.new) }
    {
        let len = (areas as usize).checked_mul(AREA).ok_or(Refusal::NoMemory)?;
        let bytes = vec![in heap; 0u8; len]?;
        self.open = Some(OpenJournal::new(Medium::Bytes(bytes), false));
        Ok(Answer::NewBytes(areas))
    }

    /// Opens a new slot journal.
    fn open_slots(&mut self, heap: Global, slots: u64) -> Result<Answer, Refusal>
        ensures { Obeys (new_slots slots) (held self.old) result (held self.new) }
    {
        let free = vec![in heap; Slot::free(); slots as usize]?;
        self.open = Some(OpenJournal::new(Medium::Slots(free), false));
        Ok(Answer::NewSlots(slots))
    }

    /// Does an operation on the journal that is open.
    fn operate(&mut self, heap: Global, operation: &Operation) -> Result<Answer, Refusal>
        ensures { Obeys (operate (op_of operation.now)) (held self.old) result (held self.new) }
    {
        match &mut self.open {
            Some(journal) => journal.operate(heap, operation),
            None => Err(Refusal::NoJournal),
        }
    }

    /// Gives the journal that is open power for so many stores, or for ever.
    fn set_power(&mut self, stores: Option<u64>) -> Result<Answer, Refusal>
        ensures { Obeys (power stores) (held self.old) result (held self.new) }
    {
        match &mut self.open {
            Some(journal) => {
                journal.carried.power = stores;
                Ok(Answer::Power(stores))
            }
            None => Err(Refusal::NoJournal),
        }
    }

    /// Changes one byte of the medium, if it has bytes.
    fn damage(&mut self, place: u64, byte: u8) -> Result<Answer, Refusal>
        ensures { Obeys (damage place byte) (held self.old) result (held self.new) }
    {
        match &mut self.open {
            Some(journal) => journal.medium.damage(place, byte),
            None => Err(Refusal::NoJournal),
        }
    }

    /// Shows some bytes of the medium, if it has bytes.
    fn show(&self, heap: Global, from: u64, count: u64) -> Result<Answer, Refusal>
        ensures { Obeys (show from count) (held self.now) result (held self.now) }
    {
        match &self.open {
            Some(journal) => journal.medium.show(heap, from, count),
            None => Err(Refusal::NoJournal),
        }
    }

    /// Does what the command says, and answers.
    fn obey(&mut self, heap: Global, command: Command) -> Result<Answer, Refusal>
        ensures { Obeys (said command) (held self.old) result (held self.new) }
    {
        match command {
            Command::NewBytes(areas) => self.open_bytes(heap, areas),
            Command::NewSlots(slots) => self.open_slots(heap, slots),
            Command::Operation(operation) => self.operate(heap, &operation),
            Command::Power(stores) => self.set_power(stores),
            Command::Damage { place, byte } => self.damage(place, byte),
            Command::Show { from, count } => self.show(heap, from, count),
        }
    }

    /// Does what was read of a line, and answers.
    fn answer(&mut self, heap: Global, command: Result<Command, Fault>) -> Result<Answer, Refusal>
        ensures { Answered (result_map said command) (held self.old) result (held self.new) }
    {
        self.obey(heap, command?)
    }

    /// Takes a line, its first word and the words after it, if it is one for this part: does what it says, and answers.
    pub fn take(
        &mut self,
        heap: Global,
        name: &[u8],
        args: &[u8],
    ) -> Option<Result<Answer, Refusal>>
        ensures { Taken (command name.now (words args.now)) (held self.old) result (held self.new) }
    {
        let command = read(heap, name, args)?;
        Some(self.answer(heap, command))
    }

    /// Opens the byte journal that these bytes are, with no bound and with power for ever: how many areas it has.
    pub fn load(&mut self, bytes: Vec<u8>) -> Result<u64, Refusal>
        ensures { Loads bytes.items (areas_in (length bytes.items)) (held self.old) result (held self.new) }
    {
        let areas = count_areas(bytes.len()).ok_or(Refusal::FileLength(bytes.len()))?;
        self.open = Some(OpenJournal::new(Medium::Bytes(bytes), true));
        Ok(areas)
    }

    /// The bytes of the journal that is open, if it was loaded.
    pub fn kept_bytes(&self) -> Option<&[u8]>
        ensures { option_map (λ bytes. bytes.now) result ≡ kept_bytes (held self.now) }
    {
        match &self.open {
            Some(journal) if journal.kept => journal.medium.bytes(),
            _ => None,
        }
    }

    /// Closes the journal that is open.
    pub fn close(&mut self)
        ensures { held self.new ≡ None }
    {
        self.open = None;
    }
}
