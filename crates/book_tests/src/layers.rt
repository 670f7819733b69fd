//! Date layers: at their edges, in a pile, and over a book with little room left.

use crate::cramped::{CrampedBook, Mark};
use crate::entries::whole;
use activity::ActivityBook;
use book::date::{Bound, Date};
use book::refusal::{Layer, Refusal};
use book::traits::Book;
use dates::layer::Dated;
use line_book::lines::Lines;
use network::gap::{Gap, Owner};
use network::network::Network;

fn least(event: usize, day: u32) -> Date {
    Date {
        event,
        bound: Bound::Least,
        day,
    }
}

fn most(event: usize, day: u32) -> Date {
    Date {
        event,
        bound: Bound::Most,
        day,
    }
}

#[test]
fn dates_are_tested_in_order(rt: HostRuntime) {
    let cases = [
        (0, most(801, 100_000), Err(Refusal::NoSuchDatePlace)),
        (65, most(801, 100_000), Err(Refusal::NoSuchDatePlace)),
        (1, most(801, 100_000), Err(Refusal::NoSuchEvent)),
        (1, most(0, 0), Err(Refusal::NoSuchEvent)),
        (64, most(800, 100_000), Err(Refusal::OutOfRange)),
        (64, most(800, 99_999), Ok(())),
        (1, least(1, 0), Ok(())),
    ];
    for (q, date, verdict) in cases {
        let mut book = Dated::over(ActivityBook::new());
        assert_eq!(rt;
            book.date(q, date),
            verdict.map_err(|why| why.at(Layer::Dates, q))
        );
        assert_eq!(rt;
            book.date_at(q),
            if verdict.is_ok() { Some(date) } else { None }
        );
    }
}

#[test]
fn a_date_is_refilled_and_cleared(rt: HostRuntime) {
    let mut book = Dated::over(ActivityBook::new());
    assert_eq!(rt;
        book.clear(2),
        Err(Refusal::DatePlaceEmpty.at(Layer::Dates, 2))
    );
    assert_eq!(rt; book.date(2, least(4, 10)), Ok(()));
    assert_eq!(rt;
        book.gap(802),
        Some(Gap {
            left: 0,
            reached: 4,
            days: 10,
        })
    );
    assert_eq!(rt; book.date(2, most(4, 11)), Ok(()));
    assert_eq!(rt;
        book.gap(802),
        Some(Gap {
            left: 4,
            reached: 0,
            days: -11,
        })
    );
    assert_eq!(rt;
        book.date(2, most(801, 11)),
        Err(Refusal::NoSuchEvent.at(Layer::Dates, 2))
    );
    assert_eq!(rt; book.date_at(2), Some(most(4, 11)));
    assert_eq!(rt; book.clear(2), Ok(()));
    assert_eq!(rt; book.gap(802), None);
    assert_eq!(rt;
        book.clear(2),
        Err(Refusal::DatePlaceEmpty.at(Layer::Dates, 2))
    );
    assert_eq!(rt;
        book.clear(65),
        Err(Refusal::NoSuchDatePlace.at(Layer::Dates, 65))
    );
}

#[test]
fn a_pile_of_three_layers(rt: HostRuntime) {
    let mut one = Dated::over(ActivityBook::new());
    assert_eq!(rt; one.date(1, least(1, 1)), Ok(()));
    let mut two = Dated::over(one);
    assert_eq!(rt; two.enter(9, whole(2)), Ok(()));
    assert_eq!(rt; two.date(65, least(2, 2)), Ok(()));
    let mut three = Dated::over(two);
    assert_eq!(rt; three.dates(), 192);
    assert_eq!(rt; three.places(), 992);
    assert_eq!(rt; three.date_at(1), Some(least(1, 1)));
    assert_eq!(rt; three.date_at(129), None);
    assert_eq!(rt; three.date(129, least(3, 3)), Ok(()));
    assert_eq!(rt; three.date(1, least(4, 4)), Ok(()));
    assert_eq!(rt; three.date_at(129), Some(least(3, 3)));
    assert_eq!(rt;
        three.date(193, least(3, 3)),
        Err(Refusal::NoSuchDatePlace.at(Layer::Dates, 193))
    );
    assert_eq!(rt; three.strike(9), Ok(()));
    assert_eq!(rt; three.clear(65), Ok(()));
    assert_eq!(rt;
        three.gap(801),
        Some(Gap {
            left: 0,
            reached: 4,
            days: 4,
        })
    );
    assert_eq!(rt; three.gap(865), None);
    assert_eq!(rt;
        three.gap(929),
        Some(Gap {
            left: 0,
            reached: 3,
            days: 3,
        })
    );
}

#[test]
fn what_is_refused_below_comes_up_whole(rt: HostRuntime) {
    let mut book = Dated::over(Dated::over(ActivityBook::new()));
    assert_eq!(rt;
        book.date(64, most(801, 1)),
        Err(Refusal::NoSuchEvent.at(Layer::Dates, 64))
    );
    assert_eq!(rt;
        book.date(0, most(1, 1)),
        Err(Refusal::NoSuchDatePlace.at(Layer::Dates, 0))
    );
    assert_eq!(rt;
        book.clear(64),
        Err(Refusal::DatePlaceEmpty.at(Layer::Dates, 64))
    );
    assert_eq!(rt;
        book.enter(7, whole(10_000)),
        Err(Refusal::OutOfRange.at(Layer::Book, 7))
    );
    assert_eq!(rt;
        book.alteration(7, whole(1)),
        Err(Refusal::LineEmpty.at(Layer::Book, 7))
    );
    assert_eq!(rt; book.enter(7, whole(1)), Ok(()));
    assert_eq!(rt; book.alteration(7, whole(2)), Ok(()));
}

#[test]
fn owners_in_a_pile(rt: HostRuntime) {
    let book = Dated::over(Dated::over(ActivityBook::new()));
    assert_eq!(rt; book.owner(800), Owner::Line(400));
    assert_eq!(rt; book.owner(801), Owner::DatePlace(1));
    assert_eq!(rt; book.owner(864), Owner::DatePlace(64));
    assert_eq!(rt; book.owner(865), Owner::DatePlace(65));
    assert_eq!(rt; book.owner(928), Owner::DatePlace(128));
    for place in [0, 929, 65_537, usize::MAX] {
        assert_eq!(rt; book.owner(place), Owner::Floor(0));
        assert_eq!(rt; book.gap(place), None);
    }
}

#[test]
fn little_room_left(rt: HostRuntime) {
    let mut book = Dated::over(CrampedBook::new());
    assert_eq!(rt; book.enter(1, Mark), Ok(()));
    assert_eq!(rt; book.dates(), 6);
    assert_eq!(rt; book.places(), 4_096);
    assert_eq!(rt; book.date(6, most(3, 9)), Ok(()));
    assert_eq!(rt;
        book.gap(4_096),
        Some(Gap {
            left: 3,
            reached: 0,
            days: -9,
        })
    );
    assert_eq!(rt; book.owner(4_096), Owner::DatePlace(6));
    assert_eq!(rt;
        book.date(7, most(3, 9)),
        Err(Refusal::NoSuchDatePlace.at(Layer::Dates, 7))
    );
    let mut full = Dated::over(book);
    assert_eq!(rt; full.dates(), 6);
    assert_eq!(rt; full.places(), 4_096);
    assert_eq!(rt;
        full.date(7, most(3, 9)),
        Err(Refusal::NoSuchDatePlace.at(Layer::Dates, 7))
    );
    assert_eq!(rt; full.date(6, least(2, 1)), Ok(()));
    assert_eq!(rt;
        full.gap(4_096),
        Some(Gap {
            left: 0,
            reached: 2,
            days: 1,
        })
    );
}
