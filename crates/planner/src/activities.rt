//! A small site as an activity book: a trench, its formwork, the pour and the laboratory's test.

use crate::call::{Call, play, print_places};
use activity::ActivityBook;
use activity::entry::{Activity, Entry, Kind, Relation, Running, Work};
use book::date::{Bound, Date};
use dates::layer::Dated;
use std::io;

// Words of this crate for its own cases: a crate that lends such words to every test and program would be no plainer.

/// An activity of so many days, without a break.
fn whole(days: u32) -> Entry {
    Entry::Activity(Activity {
        work: Work::Days(days),
        running: Running::Whole,
    })
}

/// An activity of so many hours, which may pause.
fn broken_hours(hours: u32) -> Entry {
    Entry::Activity(Activity {
        work: Work::Hours(hours),
        running: Running::Broken,
    })
}

/// A relation between two activities.
fn relation(kind: Kind, bound: Bound, first: usize, second: usize, lag: i32) -> Entry {
    Entry::Relation(Relation {
        kind,
        bound,
        first,
        second,
        lag,
    })
}

/// A day for an event.
pub fn date(event: usize, bound: Bound, day: u32) -> Date {
    Date { event, bound, day }
}

/// The lines of the plan, with what the book refuses of them.
fn lines() -> [Call<Entry>; 13] {
    [
        Call::Enter(1, whole(3)),
        Call::Enter(2, broken_hours(30)),
        Call::Enter(3, whole(2)),
        Call::Enter(4, whole(7)),
        Call::Enter(401, whole(1)),
        Call::Enter(1, whole(4)),
        Call::Enter(5, whole(10_000)),
        Call::Enter(5, relation(Kind::FS, Bound::Least, 2, 2, 0)),
        Call::Enter(5, relation(Kind::FS, Bound::Least, 2, 9, 0)),
        Call::Enter(5, relation(Kind::FS, Bound::Least, 1, 2, 0)),
        Call::Enter(6, relation(Kind::FF, Bound::Least, 2, 3, 1)),
        Call::Enter(7, relation(Kind::FS, Bound::Most, 3, 4, 2)),
        Call::Date(1, date(1, Bound::Least, 5)),
    ]
}

/// Dates of the first layer, and changes to the lines below it.
fn first_dates() -> [Call<Entry>; 8] {
    [
        Call::Date(1, date(1, Bound::Least, 5)),
        Call::Date(2, date(801, Bound::Most, 40)),
        Call::Date(2, date(6, Bound::Most, 100_000)),
        Call::Date(2, date(6, Bound::Most, 40)),
        Call::Strike(1),
        Call::Alter(1, relation(Kind::SS, Bound::Least, 2, 3, 0)),
        Call::Alter(1, whole(4)),
        Call::Alter(9, whole(4)),
    ]
}

/// Dates of the second layer and of the first.
fn second_dates() -> [Call<Entry>; 8] {
    [
        Call::Date(65, date(8, Bound::Most, 60)),
        Call::Date(1, date(1, Bound::Least, 6)),
        Call::Date(129, date(8, Bound::Most, 60)),
        Call::Clear(66),
        Call::Clear(2),
        Call::Strike(7),
        Call::Strike(4),
        Call::Strike(4),
    ]
}

/// Plays the calls, with date layers put on in between, and prints what the book then holds.
pub fn run(rt: &HostRuntime) -> io::Result<()> {
    println!(rt; "an activity book")?;
    let mut book = ActivityBook::new();
    play(rt, &mut book, &lines())?;
    println!(rt; "a date layer over it")?;
    let mut dated = Dated::over(book);
    play(rt, &mut dated, &first_dates())?;
    println!(rt; "a second date layer")?;
    let mut twice = Dated::over(dated);
    play(rt, &mut twice, &second_dates())?;
    println!(rt; "the places that hold a gap")?;
    print_places(rt, &twice)
}
