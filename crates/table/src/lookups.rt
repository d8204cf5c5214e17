//! What a table holds: the place and the value at a key, and its two ends.
ghost use Rattle.std.specs.Prelude.{◌≡◌, ◌<◌, ◌≤◌, length, not, Some, None};
ghost use Rattle.std.specs.List.{position as first_place};
ghost use Rattle.table.specs.Rows.{rank, place, at, Sorted};
ghost use Rattle.table.specs.Ends.{foremost, hindmost, Least, Greatest};

use crate::{Entry, Key};

/// The first place whose key is not below `key`, if there is one.
// kept: from the front and not by a binary search, since the clauses hold for rows that do not ascend too
fn ceiling<K: Key, V: Copy>(rows: &[Entry<K, V>], key: &K) -> Option<usize>
    ensures { result ≡ first_place (λ e. not (K.less e.key key.now)) rows.now }
{
    rows.iter().position(|row| !row.key.before(key))
}

/// How many keys are below `key`.
pub(crate) fn rank_of<K: Key, V: Copy>(rows: &[Entry<K, V>], key: &K) -> usize
    ensures counted { result ≡ rank K.less key.now rows.now }
    ensures within { result ≤ length rows.now }
{
    ceiling(rows, key).unwrap_or(rows.len())
}

/// The place of `key`, if it is there.
pub fn position<K: Key, V: Copy>(rows: &[Entry<K, V>], key: &K) -> Option<usize>
    ensures placed { result ≡ place K.less key.now rows.now }
    ensures within { elim result [ Some i ↦ i < length rows.now | None ↦ Unit {0} ] }
{
    let i = ceiling(rows, key)?;
    if key.before(&rows[i].key) {
        None
    } else {
        Some(i)
    }
}

/// The value at `key`, if it is there.
pub fn lookup<K: Key, V: Copy>(rows: &[Entry<K, V>], key: &K) -> Option<V>
    ensures { result ≡ at K.less key.now rows.now }
{
    let i = position(rows, key)?;
    Some(rows[i].value)
}

/// The entry with the least key, if there is an entry.
pub fn first<K: Key, V: Copy>(rows: &[Entry<K, V>]) -> Option<Entry<K, V>>
    ensures entry { result ≡ foremost rows.now }
    ensures least { Sorted K.less rows.now → Least K.less result rows.now }
{
    rows.first().copied()
}

/// The entry with the greatest key, if there is an entry.
pub fn last<K: Key, V: Copy>(rows: &[Entry<K, V>]) -> Option<Entry<K, V>>
    ensures entry { result ≡ hindmost rows.now }
    ensures greatest { Sorted K.less rows.now → Greatest K.less result rows.now }
{
    rows.last().copied()
}
