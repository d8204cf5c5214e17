//! Changes of a table: the first `used` entries of a slice, or all of it where `used` is past its end.
ghost use Rattle.std.specs.Prelude.{◌≡◌, length, take};
ghost use Rattle.table.specs.Rows.{Sorted};
ghost use Rattle.table.specs.Updates.{Inserted, Removed, grown, shrunk, MapInserted, MapRemoved};

use crate::lookups::{position, rank_of};
use crate::{Entry, Full, Key};

// kept: `used` beside the slice, here and in `remove`, since tables are lent slices by the project's rules; `Table` has them in one
/// Puts `value` at `key`: in place of the value there, which is handed back, or as an entry more where a place is free.
pub fn insert<K: Key, V: Copy>(
    entries: &mut [Entry<K, V>],
    used: usize,
    key: K,
    value: V,
) -> Result<Option<V>, Full>
    ensures entries { Inserted K.less key value used entries.old entries.new result }
    ensures sorted { Sorted K.less (take used entries.old) → Sorted K.less (take (grown used result) entries.new) }
    ensures map { Sorted K.less (take used entries.old) → MapInserted K.less key value (take used entries.old) (take (grown used result) entries.new) result }
{
    let n = used.min(entries.len());
    let rows: &[Entry<K, V>] = entries;
    let i = rank_of(&rows[0..n], &key);
    if i < n && !key.before(&entries[i].key) {
        let old = entries[i].value;
        entries[i].value = value;
        return Ok(Some(old));
    }
    if n == entries.len() {
        return Err(Full);
    }
    entries[n] = Entry { key, value };
    entries[i..n + 1].rotate_right(1);
    Ok(None)
}

/// Takes the entry at `key` out, if there is one, and hands its value back.
pub fn remove<K: Key, V: Copy>(entries: &mut [Entry<K, V>], used: usize, key: &K) -> Option<V>
    ensures entries { Removed K.less key.now used entries.old entries.new result }
    ensures sorted { Sorted K.less (take used entries.old) → Sorted K.less (take (shrunk used entries.old result) entries.new) }
    ensures map { Sorted K.less (take used entries.old) → MapRemoved K.less key.now (take used entries.old) (take (shrunk used entries.old result) entries.new) }
{
    let n = used.min(entries.len());
    let rows: &[Entry<K, V>] = entries;
    let i = position(&rows[0..n], key)?;
    let old = entries[i].value;
    entries[i..n].rotate_left(1);
    Some(old)
}
