//! Words for the entries and the book of the tests.

use activity::ActivityBook;
use activity::entry::{Activity, Entry, Kind, Relation, Running, Work};
use book::date::Bound;
use book::traits::Book;

// Words of this crate for its own cases: a crate that lends such words to every test and program would be no plainer.

/// An activity.
pub fn activity(work: Work, running: Running) -> Entry {
    Entry::Activity(Activity { work, running })
}

/// A whole activity of so many days.
pub fn whole(days: u32) -> Entry {
    activity(Work::Days(days), Running::Whole)
}

/// A relation between two activities.
pub fn relation(kind: Kind, bound: Bound, first: usize, second: usize, lag: i32) -> Entry {
    Entry::Relation(Relation {
        kind,
        bound,
        first,
        second,
        lag,
    })
}

/// A book with activities of 3, 4 and 5 days on lines 1 to 3 and a relation from 1 to 2 on line 4.
pub fn small() -> ActivityBook {
    let mut book = ActivityBook::new();
    let _ = book.enter(1, whole(3));
    let _ = book.enter(2, whole(4));
    let _ = book.enter(3, whole(5));
    let _ = book.enter(4, relation(Kind::FS, Bound::Least, 1, 2, 0));
    book
}
