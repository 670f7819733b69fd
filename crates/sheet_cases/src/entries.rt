//! What the cases enter.

use activity::entry::{Activity, Entry, Kind, Relation, Running, Work};
use arrow::entry::Arrow;
use book::date::{Bound, Date};

// Words of this crate for its own cases: a crate that lends such words to every test and program would be no plainer.

/// An activity of so many days.
pub fn activity(days: u32, running: Running) -> Entry {
    Entry::Activity(Activity {
        work: Work::Days(days),
        running,
    })
}

/// The start of the second activity at least so many days after the finish of the first.
pub fn follows(first: usize, second: usize, lag: i32) -> Entry {
    Entry::Relation(Relation {
        kind: Kind::FS,
        bound: Bound::Least,
        first,
        second,
        lag,
    })
}

/// An arrow from one node to another.
pub fn arrow(from: usize, to: usize, days: u32) -> Arrow {
    Arrow { from, to, days }
}

/// A day for an event.
pub fn date(event: usize, bound: Bound, day: u32) -> Date {
    Date { event, bound, day }
}
