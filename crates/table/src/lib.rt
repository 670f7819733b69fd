//! The table that lines and date places rest on: one record for each number from 1 on.

#![tactic(auto)]

ghost use Rattle.std.specs.Prelude.{◌≡◌, length};

mod records;

/// How many lines a book has.
pub const LINES: usize = 400;

/// What stands on each number from 1 to `N`.
#[derive(Drop)]
pub struct Table<T, const N: usize> {
    records: [Option<T>; N],
    ghost whole: { length records ≡ N },
}

/// What stands on each line from 1 to 400.
pub type LineTable<E> = Table<E, LINES>;
