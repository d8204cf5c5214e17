//! The calls on a `SafeTip`.
ghost use Rattle.std.specs.Prelude.{◌≡◌, true, [], length, is_ok, if◌then◌else◌};
ghost use Rattle.table.specs.Rows.{Sorted, at};
ghost use Rattle.tips.specs.Ranks.{Split};
ghost use Rattle.tips.specs.Seats.{opened, reseated, seated_after, lower_than, Ascending};
ghost use Rattle.tips.specs.Tips.{lowest, highest, Holds, replaced, Told, Answered, Sized, fitting, opening, Kept};

use super::SafeTip;
use crate::MAX_SIGNERS;
use crate::counts::Counts;
use crate::faults::max_faults;
use crate::seats::{change, seat_all};
use crate::set_size::SetSize;
use table::{Entry, Key};
use types::Height;

impl SafeTip {
    /// The tables of the empty set.
    pub fn new() -> Self
        ensures { Split [] (lowest result) (highest result) }
    {
        SafeTip {
            lo: Counts::of_zeros(0),
            hi: Counts::of_zeros(0),
        }
    }

    /// Seats the signers with these keys, each with the tip 0.
    ///
    /// Refuses where there are no keys, more than 16, or not as many as seats; nothing changes then.
    pub fn init<K: Key>(
        &mut self,
        seats: &mut [Entry<K, Height>],
        keys: &[K],
    ) -> Result<(), SetSize>
        ensures answer { Sized (opening (length seats.old) (length keys.now)) (length seats.old) (length keys.now) result }
        ensures seats { seats.new ≡ (if is_ok result then opened keys.now else seats.old) }
        ensures kept { Kept result self.old self.new }
        ensures holds { is_ok result ≡ true → Holds seats.new self.new }
        ensures sorted { is_ok result ≡ true → Ascending K.less keys.now → Sorted K.less seats.new }
    {
        let n = keys.len();
        if n == 0 || n > MAX_SIGNERS || n != seats.len() {
            return Err(SetSize {
                seats: seats.len(),
                keys: n,
            });
        }

        let f = max_faults(n);
        self.lo = Counts::of_zeros(n - f);
        self.hi = Counts::of_zeros(f);
        seat_all(seats, keys, &[Height::zero(); MAX_SIGNERS]);
        Ok(())
    }

    /// Changes the set of signers to those with these keys: leavers lose their seats, stayers keep their tips, and joiners start at 0.
    ///
    /// Refuses where there are not as many keys as seats, or more than 16; nothing changes then.
    pub fn reconcile<K: Key>(
        &mut self,
        seats: &mut [Entry<K, Height>],
        keys: &[K],
    ) -> Result<(), SetSize>
        ensures answer { Sized (fitting (length seats.old) (length keys.now)) (length seats.old) (length keys.now) result }
        ensures seats { seats.new ≡ (if is_ok result then reseated K.less keys.now seats.old else seats.old) }
        ensures kept { Kept result self.old self.new }
        ensures holds { Sorted K.less seats.old → Ascending K.less keys.now → Holds seats.old self.old → Holds seats.new self.new }
        ensures sorted { Sorted K.less seats.old → Ascending K.less keys.now → Sorted K.less seats.new }
    {
        // Verify the size of the new set.
        let n = keys.len();
        if n > MAX_SIGNERS || n != seats.len() {
            return Err(SetSize {
                seats: seats.len(),
                keys: n,
            });
        }

        // The tips of the leavers go to 0.
        self.lower_leavers(seats, keys);

        // Seat the signers of the new set.
        change(seats, keys);
        Ok(())
    }

    /// Takes the tip that the signer `key` has told.
    ///
    /// Returns `None` if the signer has no seat.
    ///
    /// Returns `None` if the new tip is not higher than the old tip.
    ///
    /// Returns `None` if the old tip is not counted here: then these are the seats of another set.
    ///
    /// Otherwise, returns the old tip, which the new one has replaced.
    pub fn update<K: Key>(
        &mut self,
        seats: &mut [Entry<K, Height>],
        key: &K,
        tip: Height,
    ) -> Option<Height>
        ensures answer { result ≡ replaced K.less key.now tip seats.old self.old }
        ensures seats { seats.new ≡ seated_after K.less key.now tip result seats.old }
        ensures tables { Told tip result self.old self.new }
        ensures counts { Holds seats.old self.old → result ≡ lower_than tip (at K.less key.now seats.old) }
        ensures holds { Holds seats.old self.old → Holds seats.new self.new }
        ensures sorted { Sorted K.less seats.old → Sorted K.less seats.new }
    {
        // Return early if the signer is not in the set.
        let i = table::position(seats, key)?;

        // If the new tip is not higher than the old tip, this is a no-op.
        let old = seats[i].value;
        let stale = old >= tip;
        if stale {
            return None;
        }

        // A tip that is not counted is that of another set.
        if !self.counts(old) {
            return None;
        }

        // Update the tip for the signer, and the tables.
        seats[i].value = tip;
        self.shift(old, tip);
        Some(old)
    }

    /// The safe tip: the (f + 1)-th highest tip, or `None` for the empty set.
    pub fn get(&self) -> Option<Height>
        ensures { Answered result self.now }
    {
        self.lo.last()
    }
}
