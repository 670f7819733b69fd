//! The records of a table, numbered from 1.

ghost use Rattle.std.specs.Prelude.{◌≡◌, ℕ, None};
ghost use Rattle.table.specs.Standing.{standing, changed};

use crate::Table;
use book::range::is_within;

impl<T: Copy, const N: usize> Table<T, N> {
    /// A table on which nothing stands.
    pub fn new() -> Table<T, N>
        ensures { (p : ℕ) → standing result p ≡ None }
    {
        Table { records: [None; N] }
    }

    /// What stands on a number, or nothing; nothing outside 1 to `N`.
    pub fn get(&self, p: usize) -> Option<T>
        ensures { result ≡ standing self.now p }
    {
        if is_within(p, N) {
            self.records[p - 1]
        } else {
            None
        }
    }

    /// Changes one record from 1 to `N`; elsewhere nothing changes.
    pub fn put(&mut self, p: usize, stands: Option<T>)
        ensures { standing self.new ≡ changed N (standing self.old) p stands }
    {
        if is_within(p, N) {
            let at = p - 1;
            self.records[at] = stands;
        }
    }
}
