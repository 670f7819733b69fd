//! What activities and relations ask for, and who owns the places.
//! A most lag is no least lag with its sign turned, and a whole activity has two gaps.

use crate::entries::{activity, relation, small, whole};
use activity::ActivityBook;
use activity::entry::{Entry, Kind, Running, Work};
use book::date::Bound;
use book::traits::Book;
use line_book::lines::Lines;
use network::gap::{Gap, Owner};
use network::network::Network;

#[test]
fn a_relation_asks_by_kind_and_bound(rt: HostRuntime) {
    let cases = [
        (
            Kind::FS,
            Bound::Least,
            Gap {
                left: 2,
                reached: 3,
                days: 4,
            },
        ),
        (
            Kind::FS,
            Bound::Most,
            Gap {
                left: 3,
                reached: 2,
                days: -4,
            },
        ),
        (
            Kind::SS,
            Bound::Least,
            Gap {
                left: 1,
                reached: 3,
                days: 4,
            },
        ),
        (
            Kind::SS,
            Bound::Most,
            Gap {
                left: 3,
                reached: 1,
                days: -4,
            },
        ),
        (
            Kind::FF,
            Bound::Least,
            Gap {
                left: 2,
                reached: 4,
                days: 4,
            },
        ),
        (
            Kind::FF,
            Bound::Most,
            Gap {
                left: 4,
                reached: 2,
                days: -4,
            },
        ),
        (
            Kind::SF,
            Bound::Least,
            Gap {
                left: 1,
                reached: 4,
                days: 4,
            },
        ),
        (
            Kind::SF,
            Bound::Most,
            Gap {
                left: 4,
                reached: 1,
                days: -4,
            },
        ),
    ];
    for (kind, bound, gap) in cases {
        let mut book = small();
        assert_eq!(rt; book.alter(4, relation(kind, bound, 1, 2, 4)), Ok(()));
        assert_eq!(rt; book.gap(7), Some(gap));
        assert_eq!(rt; book.gap(8), None);
    }
}

#[test]
fn an_activity_asks_by_its_days_and_pauses(rt: HostRuntime) {
    let cases = [
        (activity(Work::Days(5), Running::Whole), 5, Some(-5)),
        (activity(Work::Days(5), Running::Broken), 5, None),
        (activity(Work::Hours(0), Running::Whole), 0, Some(0)),
        (activity(Work::Hours(16), Running::Whole), 2, Some(-2)),
        (activity(Work::Hours(17), Running::Broken), 3, None),
        (
            activity(Work::Hours(79_992), Running::Whole),
            9_999,
            Some(-9_999),
        ),
    ];
    for (entry, days, back) in cases {
        let mut book = ActivityBook::new();
        assert_eq!(rt; book.enter(400, entry), Ok(()));
        assert_eq!(rt;
            book.gap(799),
            Some(Gap {
                left: 799,
                reached: 800,
                days,
            })
        );
        let second = match back {
            Some(days) => Some(Gap {
                left: 800,
                reached: 799,
                days,
            }),
            None => None,
        };
        assert_eq!(rt; book.gap(800), second);
        assert_eq!(rt; book.gap(798), None);
    }
}

#[test]
fn places_and_owners(rt: HostRuntime) {
    let book = small();
    assert_eq!(rt; book.events(), 800);
    assert_eq!(rt; book.places(), 800);
    assert_eq!(rt; book.lines(), 400);
    assert_eq!(rt; book.dates(), 0);
    let cases = [
        (0, Owner::Floor(0)),
        (1, Owner::Line(1)),
        (2, Owner::Line(1)),
        (3, Owner::Line(2)),
        (799, Owner::Line(400)),
        (800, Owner::Line(400)),
        (801, Owner::Floor(0)),
        (65_537, Owner::Floor(0)),
        (usize::MAX, Owner::Floor(0)),
    ];
    for (place, owner) in cases {
        assert_eq!(rt; book.owner(place), owner);
    }
    assert_eq!(rt; book.gap(0), None);
    assert_eq!(rt; book.gap(65_537), None);
}
