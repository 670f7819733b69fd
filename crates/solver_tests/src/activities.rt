//! Five activities with seven relations, lags that fit exactly or not, and dates.

use crate::known::check_windows;
use activity::ActivityBook;
use activity::entry::{Activity, Entry, Kind, Relation, Running, Work};
use book::date::{Bound, Date};
use book::traits::Book;
use dates::layer::Dated;
use network::gap::{Gap, Step};
use solver::solve::solve;
use std::test::Fail;

// Words of this crate for its own cases: a crate that lends such words to every test and program would be no plainer.

fn activity(days: u32, running: Running) -> Entry {
    Entry::Activity(Activity {
        work: Work::Days(days),
        running,
    })
}

fn relation(kind: Kind, bound: Bound, first: usize, second: usize, lag: i32) -> Entry {
    Entry::Relation(Relation {
        kind,
        bound,
        first,
        second,
        lag,
    })
}

/// Five activities of 3, 4, 5, 2 and 6 days, and seven relations between them.
fn five(running: Running) -> ActivityBook {
    let mut book = ActivityBook::new();
    for (line, days) in [3, 4, 5, 2, 6].iter().enumerate() {
        let _ = book.enter(line + 1, activity(*days, running));
    }
    let relations = [
        relation(Kind::FS, Bound::Least, 1, 2, 0),
        relation(Kind::FS, Bound::Least, 1, 3, 3),
        relation(Kind::SS, Bound::Least, 2, 4, 5),
        relation(Kind::FF, Bound::Least, 2, 4, 5),
        relation(Kind::SS, Bound::Most, 3, 5, 5),
        relation(Kind::SS, Bound::Least, 4, 5, 4),
        relation(Kind::FF, Bound::Most, 4, 5, 12),
    ];
    for (after, entry) in relations.iter().enumerate() {
        let _ = book.enter(after + 6, *entry);
    }
    book
}

/// Whole activities of 3 and 4 days, the second exactly 5 days after the first or at most `most`.
fn lagged(most: i32) -> ActivityBook {
    let mut book = ActivityBook::new();
    for (line, days) in [3, 4].iter().enumerate() {
        let _ = book.enter(line + 1, activity(*days, Running::Whole));
    }
    let _ = book.enter(3, relation(Kind::FS, Bound::Least, 1, 2, 5));
    let _ = book.enter(4, relation(Kind::FS, Bound::Most, 1, 2, most));
    book
}

/// One whole activity of 3 days with one date on it.
fn dated(event: usize, bound: Bound, day: u32) -> Dated<ActivityBook> {
    let mut book = Dated::over(ActivityBook::new());
    let _ = book.enter(1, activity(3, Running::Whole));
    let _ = book.date(1, Date { event, bound, day });
    book
}

#[test]
fn five_whole(rt: HostRuntime) -> Result<(), Fail> {
    let windows = [
        (1, 0, 0),
        (2, 3, 3),
        (3, 3, 3),
        (4, 7, 7),
        (5, 9, 15),
        (6, 14, 20),
        (7, 10, 10),
        (8, 12, 12),
        (9, 14, 14),
        (10, 20, 20),
    ];
    check_windows(&rt, &solve(&five(Running::Whole)), 20, &windows)
}

#[test]
fn five_broken(rt: HostRuntime) -> Result<(), Fail> {
    let windows = [(3, 3, 3), (4, 7, 13), (7, 8, 8), (8, 12, 18), (10, 18, 18)];
    check_windows(&rt, &solve(&five(Running::Broken)), 18, &windows)
}

#[test]
fn lags_and_dates(rt: HostRuntime) -> Result<(), Fail> {
    check_windows(
        &rt,
        &solve(&ActivityBook::new()),
        0,
        &[(0, 0, 0), (800, 0, 0)],
    )?;
    check_windows(&rt, &solve(&lagged(5)), 12, &[(3, 8, 8)])?;
    check_windows(
        &rt,
        &solve(&dated(1, Bound::Least, 5)),
        8,
        &[(1, 5, 5), (2, 8, 8)],
    )?;
    check_windows(
        &rt,
        &solve(&dated(2, Bound::Most, 3)),
        3,
        &[(1, 0, 0), (2, 3, 3)],
    )
}

#[test]
fn contradictions(rt: HostRuntime) -> Result<(), Fail> {
    let Err(ring) = solve(&lagged(4)) else {
        return Err(Fail::new("sound"));
    };
    assert_eq!(rt; ring.steps(), 2);
    let Err(late) = solve(&dated(2, Bound::Most, 2)) else {
        return Err(Fail::new("sound"));
    };
    assert_eq!(rt; late.steps(), 3);
    assert_eq!(rt;
        late.step(1),
        Some(Step {
            place: 0,
            gap: Gap {
                left: 0,
                reached: 1,
                days: 0,
            },
        })
    );
    assert_eq!(rt;
        late.step(2),
        Some(Step {
            place: 1,
            gap: Gap {
                left: 1,
                reached: 2,
                days: 3,
            },
        })
    );
    assert_eq!(rt;
        late.step(3),
        Some(Step {
            place: 801,
            gap: Gap {
                left: 2,
                reached: 0,
                days: -2,
            },
        })
    );
    assert_eq!(rt; late.step(4), None);
    Ok(())
}

/// A chain of 200 activities of 9,999 days, each 9,999 days after the one before; relations in order or in reverse.
fn chain(reversed: bool) -> ActivityBook {
    let mut book = ActivityBook::new();
    for line in 1..=200 {
        let _ = book.enter(line, activity(9_999, Running::Whole));
    }
    for turn in 1..=199 {
        let first = if reversed { 200 - turn } else { turn };
        let _ = book.enter(
            turn + 200,
            relation(Kind::FS, Bound::Least, first, first + 1, 9_999),
        );
    }
    book
}

#[test]
fn the_longest_chains(rt: HostRuntime) -> Result<(), Fail> {
    let windows = [
        (1, 0, 0),
        (2, 9_999, 9_999),
        (399, 3_979_602, 3_979_602),
        (400, 3_989_601, 3_989_601),
    ];
    check_windows(&rt, &solve(&chain(false)), 3_989_601, &windows)?;
    check_windows(&rt, &solve(&chain(true)), 3_989_601, &windows)
}
