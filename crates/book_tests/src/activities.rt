//! The activity book at its edges.

use crate::entries::{activity, relation, small, whole};
use activity::ActivityBook;
use activity::entry::{Entry, Kind, Running, Work};
use book::date::Bound;
use book::refusal::{Layer, Refusal};
use book::traits::Book;

#[test]
fn ranges(rt: HostRuntime) {
    let cases = [
        (whole(0), Ok(())),
        (whole(9_999), Ok(())),
        (whole(10_000), Err(Refusal::OutOfRange)),
        (activity(Work::Hours(79_992), Running::Broken), Ok(())),
        (
            activity(Work::Hours(79_993), Running::Broken),
            Err(Refusal::OutOfRange),
        ),
        (
            activity(Work::Hours(u32::MAX), Running::Whole),
            Err(Refusal::OutOfRange),
        ),
        (relation(Kind::SS, Bound::Most, 1, 2, 9_999), Ok(())),
        (
            relation(Kind::SS, Bound::Most, 1, 2, 10_000),
            Err(Refusal::OutOfRange),
        ),
        (relation(Kind::FF, Bound::Least, 1, 2, -9_999), Ok(())),
        (
            relation(Kind::FF, Bound::Least, 1, 2, -10_000),
            Err(Refusal::OutOfRange),
        ),
        (
            relation(Kind::SF, Bound::Least, 1, 2, i32::MIN),
            Err(Refusal::OutOfRange),
        ),
    ];
    for (entry, verdict) in cases {
        let mut book = small();
        assert_eq!(rt;
            book.enter(5, entry),
            verdict.map_err(|why| why.at(Layer::Book, 5))
        );
        let stands = if verdict.is_ok() { Some(entry) } else { None };
        assert_eq!(rt; book.line(5), stands);
    }
}

#[test]
fn lines_run_from_1_to_400(rt: HostRuntime) {
    let cases = [
        (0, Err(Refusal::NoSuchLine)),
        (1, Ok(())),
        (400, Ok(())),
        (401, Err(Refusal::NoSuchLine)),
        (usize::MAX, Err(Refusal::NoSuchLine)),
    ];
    for (p, verdict) in cases {
        let mut book = ActivityBook::new();
        assert_eq!(rt;
            book.strike(p),
            Err(
                verdict
                    .err()
                    .unwrap_or(Refusal::LineEmpty)
                    .at(Layer::Book, p)
            )
        );
        assert_eq!(rt;
            book.alter(p, whole(1)),
            Err(
                verdict
                    .err()
                    .unwrap_or(Refusal::LineEmpty)
                    .at(Layer::Book, p)
            )
        );
        assert_eq!(rt;
            book.enter(p, whole(1)),
            verdict.map_err(|why| why.at(Layer::Book, p))
        );
        assert_eq!(rt; book.line(p).is_some(), verdict.is_ok());
    }
}

#[test]
fn entering_is_tested_in_order(rt: HostRuntime) {
    let cases = [
        (401, whole(10_000), Refusal::NoSuchLine),
        (1, whole(10_000), Refusal::LineStands),
        (
            5,
            relation(Kind::FS, Bound::Least, 9, 9, 10_000),
            Refusal::OutOfRange,
        ),
        (
            5,
            relation(Kind::FS, Bound::Least, 9, 9, 0),
            Refusal::SameEnds,
        ),
        (
            5,
            relation(Kind::FS, Bound::Least, 1, 9, 0),
            Refusal::NoActivity,
        ),
        (
            5,
            relation(Kind::FS, Bound::Least, 0, 1, 0),
            Refusal::NoActivity,
        ),
        (
            5,
            relation(Kind::FS, Bound::Least, 1, 401, 0),
            Refusal::NoActivity,
        ),
        (
            5,
            relation(Kind::FS, Bound::Least, 1, 4, 0),
            Refusal::NoActivity,
        ),
        (
            5,
            relation(Kind::FS, Bound::Least, 5, 1, 0),
            Refusal::NoActivity,
        ),
    ];
    for (p, entry, why) in cases {
        let mut book = small();
        assert_eq!(rt; book.enter(p, entry), Err(why.at(Layer::Book, p)));
    }
}

#[test]
fn altering_is_tested_in_order(rt: HostRuntime) {
    let cases = [
        (0, whole(10_000), Err(Refusal::NoSuchLine)),
        (5, whole(10_000), Err(Refusal::LineEmpty)),
        (1, whole(10_000), Err(Refusal::OutOfRange)),
        (
            1,
            relation(Kind::FS, Bound::Least, 2, 2, 0),
            Err(Refusal::SameEnds),
        ),
        (
            1,
            relation(Kind::FS, Bound::Least, 1, 3, 0),
            Err(Refusal::NoActivity),
        ),
        (
            1,
            relation(Kind::FS, Bound::Least, 2, 3, 0),
            Err(Refusal::StillNamed),
        ),
        (1, whole(6), Ok(())),
        (3, relation(Kind::FS, Bound::Least, 1, 2, 0), Ok(())),
        (
            3,
            relation(Kind::FS, Bound::Least, 1, 3, 0),
            Err(Refusal::NoActivity),
        ),
        (4, relation(Kind::SS, Bound::Most, 1, 2, 3), Ok(())),
        (4, whole(6), Ok(())),
    ];
    for (p, entry, verdict) in cases {
        let mut book = small();
        let was = book.line(p);
        assert_eq!(rt;
            book.alteration(p, entry),
            verdict.map_err(|why| why.at(Layer::Book, p))
        );
        assert_eq!(rt; book.line(p), was);
        assert_eq!(rt;
            book.alter(p, entry),
            verdict.map_err(|why| why.at(Layer::Book, p))
        );
        assert_eq!(rt;
            book.line(p),
            if verdict.is_ok() { Some(entry) } else { was }
        );
    }
}

#[test]
fn a_named_activity_is_not_struck(rt: HostRuntime) {
    let mut book = small();
    assert_eq!(rt; book.strike(1), Err(Refusal::StillNamed.at(Layer::Book, 1)));
    assert_eq!(rt; book.strike(2), Err(Refusal::StillNamed.at(Layer::Book, 2)));
    assert_eq!(rt; book.strike(3), Ok(()));
    assert_eq!(rt; book.strike(4), Ok(()));
    assert_eq!(rt; book.strike(1), Ok(()));
    assert_eq!(rt; book.strike(1), Err(Refusal::LineEmpty.at(Layer::Book, 1)));
    assert_eq!(rt; book.line(1), None);
}
