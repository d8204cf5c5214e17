//! The calls on a table in an array of its own.
ghost use Rattle.std.specs.Prelude.{◌≡◌, ◌≤◌, [], length};
ghost use Rattle.table.specs.Rows.{at, put, without};
ghost use Rattle.table.specs.Tables.{rows_of, Put};

use super::Table;
use crate::{Entry, Full, Key, insert, lookup, remove};

impl<K: Key, V: Copy, const N: usize> Table<K, V, N> {
    /// No entries; the places in the array hold `filler` meanwhile.
    pub fn new(filler: Entry<K, V>) -> Self
        ensures { rows_of result ≡ [] }
    {
        Table {
            entries: [filler; N],
            used: 0,
        }
    }

    /// The entries.
    pub fn as_slice(&self) -> &[Entry<K, V>]
        ensures rows { result.now ≡ rows_of self.now }
        ensures few { length result.now ≤ N }
    {
        let entries = &self.entries[..];
        &entries[0..self.used]
    }

    /// The value at `key`, if it is there.
    pub fn get(&self, key: &K) -> Option<V>
        ensures { result ≡ at K.less key.now (rows_of self.now) }
    {
        lookup(self.as_slice(), key)
    }

    /// Puts `value` at `key`: in place of the value there, which is handed back, or as an entry more where a place is free.
    pub fn insert(&mut self, key: K, value: V) -> Result<Option<V>, Full>
        ensures { Put K.less N key value (rows_of self.old) (rows_of self.new) result }
    {
        let old = insert(&mut self.entries, self.used, key, value)?;
        if old.is_none() {
            self.used += 1;
        }
        Ok(old)
    }

    /// Takes the entry at `key` out, if there is one, and hands its value back.
    pub fn remove(&mut self, key: &K) -> Option<V>
        ensures value { result ≡ at K.less key.now (rows_of self.old) }
        ensures rows { rows_of self.new ≡ without K.less key.now (rows_of self.old) }
    {
        let old = remove(&mut self.entries, self.used, key)?;
        self.used -= 1;
        Some(old)
    }
}
