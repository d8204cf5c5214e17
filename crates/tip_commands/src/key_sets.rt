//! The keys of a set of signers.
ghost use Rattle.std.specs.Prelude.{◌≡◌, ◌+◌, ◌<◌, ◌≤◌, true, not, [], length, is_some, is_ok, IfErr, OnOk, OnErr};
ghost use Rattle.table.specs.Keys.{ahead};
ghost use Rattle.table.specs.Rows.{at, put};
ghost use Rattle.types.specs.Numbers.{height};
ghost use Rattle.tip_commands.specs.Order.{ascends, at_zero};

use crate::{Fault, MAX_KEYS};
use arrayvec::ArrayVec;
use types::Participant;

/// The keys of a set, in ascending order.
#[derive(Drop)]
pub struct KeySet {
    keys: ArrayVec<Participant, MAX_KEYS>,
    ghost ascending: { ascends (at_zero keys.items) ≡ true },
}

impl KeySet {
    ghost use Rattle.tip_commands.specs.Sets.{seats_of, keys_of};
    ghost use Rattle.tip_commands.specs.declared.faults.Fault.TheVariants.{KeyTwice};

    /// No keys.
    pub(crate) fn new() -> Self
        ensures { seats_of result ≡ [] }
    {
        Self {
            keys: ArrayVec::new(),
        }
    }

    /// The keys.
    pub fn keys(&self) -> &[Participant]
        ensures keys { result.now ≡ keys_of (seats_of self.now) }
        ensures len { length result.now ≡ length (seats_of self.now) }
        ensures few { length result.now ≤ 16 }
    {
        self.keys.as_slice()
    }

    /// Adds the key; a key that stands in the set already is refused, and nothing changes.
    pub(crate) fn add(&mut self, key: Participant) -> Result<(), Fault>
        requires { length (seats_of self.old) < 16 }
        ensures new { is_ok result ≡ not (is_some (at ahead key (seats_of self.old))) }
        ensures twice { IfErr result (λ fault. fault ≡ KeyTwice key) }
        ensures keys { OnOk result (seats_of self.new ≡ put ahead key (height 0) (seats_of self.old)) }
        ensures grown { OnOk result (length (seats_of self.new) ≡ length (seats_of self.old) + 1) }
        ensures refused { OnErr result (self.new ≡ self.old) }
    {
        match self.keys.binary_search(&key) {
            Ok(_) => Err(Fault::KeyTwice(key)),
            Err(place) => {
                self.keys.insert(place, key);
                Ok(())
            }
        }
    }
}
