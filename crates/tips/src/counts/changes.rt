//! What is asked of a table of counts, and its changes by one tip.
ghost use Rattle.std.specs.Prelude.{◌≡◌, ◌<◌, ◌≤◌, true, is_some};
ghost use Rattle.std.specs.Option.{unwrap_or};
ghost use Rattle.table.specs.Keys.{shorter};
ghost use Rattle.table.specs.Rows.{at};
ghost use Rattle.tips.specs.Counting.{more, fewer, shifted, total, least, greatest, zeros};
ghost use Rattle.tips.specs.Tables.{rows_of};

use super::Counts;
use table::{Entry, Table};
use types::Height;

impl Counts {
    /// A table of `count` tips of 0.
    pub fn of_zeros(count: usize) -> Self
        ensures { rows_of result ≡ zeros count }
    {
        let zero = Height::zero();
        let mut table = Table::new(Entry {
            key: zero,
            value: 0,
        });
        if count > 0 {
            let _ = table.insert(zero, count);
        }
        Counts { table }
    }

    /// How many tips are counted at `height`.
    fn count(&self, height: Height) -> usize
        ensures { result ≡ unwrap_or (at shorter height (rows_of self.now)) 0 }
    {
        self.table.get(&height).unwrap_or(0)
    }

    /// Counts one tip more at `height`.
    pub fn inc(&mut self, height: Height)
        requires { total (rows_of self.old) < 16 }
        ensures { rows_of self.new ≡ more height (rows_of self.old) }
    {
        let count = self.count(height);
        let _ = self.table.insert(height, count + 1);
    }

    /// Counts one tip fewer at `height`, where there is one.
    pub fn dec(&mut self, height: Height)
        ensures { rows_of self.new ≡ fewer height (rows_of self.old) }
    {
        let count = self.count(height);
        if count > 1 {
            let _ = self.table.insert(height, count - 1);
        } else {
            self.table.remove(&height);
        }
    }

    /// Counts a tip at `new` in place of one at `old`.
    pub fn shift(&mut self, old: Height, new: Height)
        requires there { is_some (at shorter old (rows_of self.old)) ≡ true }
        requires few { total (rows_of self.old) ≤ 16 }
        ensures { rows_of self.new ≡ shifted old new (rows_of self.old) }
    {
        self.dec(old);
        self.inc(new);
    }

    /// Whether a tip is counted at `height`.
    pub fn has(&self, height: Height) -> bool
        ensures { result ≡ is_some (at shorter height (rows_of self.now)) }
    {
        self.table.get(&height).is_some()
    }

    /// The least height, if there is one.
    pub fn first(&self) -> Option<Height>
        ensures { result ≡ least (rows_of self.now) }
    {
        Some(table::first(self.table.as_slice())?.key)
    }

    /// The greatest height, if there is one.
    pub fn last(&self) -> Option<Height>
        ensures { result ≡ greatest (rows_of self.now) }
    {
        Some(table::last(self.table.as_slice())?.key)
    }
}
