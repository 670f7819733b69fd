//! The arrow book at its edges.

use arrow::ArrowBook;
use arrow::entry::Arrow;
use book::date::{Bound, Date};
use book::refusal::{Layer, Refusal};
use book::traits::Book;
use line_book::lines::Lines;
use network::gap::{Gap, Owner};
use network::network::Network;

fn arrow(from: usize, to: usize, days: u32) -> Arrow {
    Arrow { from, to, days }
}

#[test]
fn ranges_before_sameness(rt: HostRuntime) {
    let cases = [
        (arrow(1, 200, 9_999), Ok(())),
        (arrow(200, 1, 0), Ok(())),
        (arrow(1, 2, 10_000), Err(Refusal::OutOfRange)),
        (arrow(0, 2, 1), Err(Refusal::OutOfRange)),
        (arrow(1, 201, 1), Err(Refusal::OutOfRange)),
        (arrow(201, 201, 1), Err(Refusal::OutOfRange)),
        (arrow(2, 2, 10_000), Err(Refusal::OutOfRange)),
        (arrow(2, 2, 0), Err(Refusal::SameEnds)),
    ];
    for (entry, verdict) in cases {
        let mut book = ArrowBook::new();
        assert_eq!(rt;
            book.enter(7, entry),
            verdict.map_err(|why| why.at(Layer::Book, 7))
        );
        assert_eq!(rt;
            book.line(7),
            if verdict.is_ok() { Some(entry) } else { None }
        );
        let gap = Gap {
            left: entry.from,
            reached: entry.to,
            days: i64::from(entry.days),
        };
        assert_eq!(rt; book.gap(7), if verdict.is_ok() { Some(gap) } else { None });
    }
}

#[test]
fn lines_are_tested_first(rt: HostRuntime) {
    let mut book = ArrowBook::new();
    assert_eq!(rt;
        book.enter(0, arrow(2, 2, 0)),
        Err(Refusal::NoSuchLine.at(Layer::Book, 0))
    );
    assert_eq!(rt;
        book.enter(401, arrow(2, 2, 0)),
        Err(Refusal::NoSuchLine.at(Layer::Book, 401))
    );
    assert_eq!(rt;
        book.alter(400, arrow(2, 2, 0)),
        Err(Refusal::LineEmpty.at(Layer::Book, 400))
    );
    assert_eq!(rt; book.enter(400, arrow(1, 2, 3)), Ok(()));
    assert_eq!(rt;
        book.enter(400, arrow(2, 2, 0)),
        Err(Refusal::LineStands.at(Layer::Book, 400))
    );
    assert_eq!(rt;
        book.alter(400, arrow(2, 2, 0)),
        Err(Refusal::SameEnds.at(Layer::Book, 400))
    );
    assert_eq!(rt; book.alteration(400, arrow(2, 1, 3)), Ok(()));
    assert_eq!(rt; book.line(400), Some(arrow(1, 2, 3)));
    assert_eq!(rt; book.alter(400, arrow(2, 1, 3)), Ok(()));
    assert_eq!(rt; book.line(400), Some(arrow(2, 1, 3)));
    assert_eq!(rt; book.strike(400), Ok(()));
    assert_eq!(rt; book.line(400), None);
}

#[test]
fn places_and_owners(rt: HostRuntime) {
    let book = ArrowBook::new();
    assert_eq!(rt; book.events(), 200);
    assert_eq!(rt; book.places(), 400);
    assert_eq!(rt; book.lines(), 400);
    assert_eq!(rt; book.dates(), 0);
    let cases = [
        (0, Owner::Floor(0)),
        (1, Owner::Line(1)),
        (400, Owner::Line(400)),
        (401, Owner::Floor(0)),
        (65_537, Owner::Floor(0)),
    ];
    for (place, owner) in cases {
        assert_eq!(rt; book.owner(place), owner);
        assert_eq!(rt; book.gap(place), None);
    }
}

#[test]
fn a_bare_book_has_no_date_places(rt: HostRuntime) {
    let mut book = ArrowBook::new();
    let bad = Date {
        event: 201,
        bound: Bound::Least,
        day: 100_000,
    };
    for q in [0, 1, 64, usize::MAX] {
        assert_eq!(rt;
            book.date(q, bad),
            Err(Refusal::NoSuchDatePlace.at(Layer::Dates, q))
        );
        assert_eq!(rt;
            book.clear(q),
            Err(Refusal::NoSuchDatePlace.at(Layer::Dates, q))
        );
        assert!(rt; book.date_at(q).is_none());
    }
}
