//! One counted tip goes up or down.
ghost use Rattle.std.specs.Prelude.{◌≡◌, true};
ghost use Rattle.tips.specs.Seats.{tip_of, settled};
ghost use Rattle.tips.specs.Tips.{counts as has, Moved, Recorded};

use super::SafeTip;
use crate::seats::is_among;
use table::{Entry, Key};
use types::Height;

impl SafeTip {
    /// Whether a tip is counted at `height`.
    pub(super) fn counts(&self, height: Height) -> bool
        ensures { result ≡ has self.now height }
    {
        self.hi.has(height) || self.lo.has(height)
    }

    /// Counts a tip at `new` in place of one at `old`.
    ///
    /// The tip stays in its table if the other one has none that `new` passes.
    /// Otherwise it takes the place of the nearest tip there, which comes over instead.
    pub(super) fn shift(&mut self, old: Height, new: Height)
        requires { has self.old old ≡ true }
        ensures { Moved old new self.old self.new }
    {
        if self.hi.has(old) {
            match self.lo.last() {
                Some(max_lo) if new < max_lo => {
                    self.hi.shift(old, max_lo);
                    self.lo.shift(max_lo, new);
                }
                _ => self.hi.shift(old, new),
            }
        } else {
            match self.hi.first() {
                Some(min_hi) if min_hi < new => {
                    self.lo.shift(old, min_hi);
                    self.hi.shift(min_hi, new);
                }
                _ => self.lo.shift(old, new),
            }
        }
    }

    /// Lowers the tip of a seat to 0 if it is a leaver's, one whose key is not among `keys`.
    fn settle<K: Key>(&mut self, seat: &Entry<K, Height>, keys: &[K])
        ensures { has self.old seat.now.value ≡ true → Moved seat.now.value (settled K.less keys.now seat.now) self.old self.new }
    {
        if seat.value.is_zero() {
            return;
        }
        if !is_among(keys, &seat.key) && self.counts(seat.value) {
            self.shift(seat.value, Height::zero());
        }
    }

    /// Lowers the tips of the leavers to 0.
    pub(super) fn lower_leavers<K: Key>(&mut self, seats: &[Entry<K, Height>], keys: &[K])
        ensures { Recorded tip_of seats.now self.old → Recorded (λ e. (settled K.less keys.now e).0) seats.now self.new }
    {
        for seat in seats {
            self.settle(seat, keys);
        }
    }
}
