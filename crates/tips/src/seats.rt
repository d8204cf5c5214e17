//! The seats that the caller lends: each signer's key with its recorded tip.
ghost use Rattle.std.specs.Prelude.{◌≡◌, ◌≤◌, map, length, take};
ghost use Rattle.table.specs.Order.{level};
ghost use Rattle.types.specs.Numbers.{Height};
ghost use Rattle.tips.specs.Seats.{among, carried, seated, reseated};

use crate::MAX_SIGNERS;
use arrayvec::ArrayVec;
use table::{Entry, Key};
use types::Height;

/// Whether the two keys are one.
fn same<K: Key>(x: &K, y: &K) -> bool
    ensures { result ≡ level K.less x.now y.now }
{
    !x.before(y) && !y.before(x)
}

/// Whether `key` is one of the `keys`.
pub(crate) fn is_among<K: Key>(keys: &[K], key: &K) -> bool
    ensures { result ≡ among K.less key.now keys.now }
{
    keys.iter().any(|other| same(other, key))
}

/// The tip that `key` brings to a new set: its own, or 0 where it has no seat.
fn carry<K: Key>(seats: &[Entry<K, Height>], key: &K) -> Height
    ensures { result ≡ carried K.less seats.now key.now }
{
    table::lookup(seats, key).unwrap_or(Height::zero())
}

/// Gives each key, in order, a seat with the tip at its place in `tips`.
pub fn seat_all<K: Key>(seats: &mut [Entry<K, Height>], keys: &[K], tips: &[Height])
    requires sized { length keys.now ≡ length seats.old }
    requires long { length keys.now ≤ length tips.now }
    ensures { (f : K → Height) → take (length keys.now) tips.now ≡ map f keys.now → seats.new ≡ seated f keys.now }
{
    // kept: written by index, since of what `seats.iter_mut().zip(..)` writes a proof knows the length alone (tried: no invariant names it)
    for (i, key) in keys.iter().enumerate() {
        seats[i] = Entry {
            key: *key,
            value: tips[i],
        };
    }
}

/// Changes the seats to those of the new set: stayers keep their tips, and joiners start at 0.
pub fn change<K: Key>(seats: &mut [Entry<K, Height>], keys: &[K])
    requires sized { length keys.now ≡ length seats.old }
    requires few { length keys.now ≤ 16 }
    ensures { seats.new ≡ reseated K.less keys.now seats.old }
{
    let mut tips = ArrayVec::<Height, MAX_SIGNERS>::new();
    for key in keys {
        tips.push(carry(seats, key));
    }
    seat_all(seats, keys, &tips);
}
