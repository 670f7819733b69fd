//! A book, and the dates that one layer lays over it.

ghost use Rattle.std.specs.Prelude.{◌≡◌};
ghost use Rattle.book.specs.Calls.{layer as layering, hears};
ghost use Rattle.book.specs.Layers.{added, asked, date_in_range};
ghost use Rattle.book.specs.Past.{InStep};
ghost use Rattle.dates.specs.Layered.{over};

use book::date::{Bound, Date};
use book::range::is_within;
use book::traits::Book;
use network::gap::Gap;
use table::Table;

mod calls;
mod places;

/// How many date places a layer adds where there is room.
pub const DATES: usize = 64;

/// The last day that a date can name.
pub const LAST_DAY: u32 = 99_999;

/// The most places that a network has.
pub const PLACES: usize = 4096;

/// A book with a date layer over it: up to 64 more date places, each with one place of its own.
#[derive(Drop)]
pub struct Dated<B: Book> {
    below: B,
    own: Table<Date, DATES>,
}

/// The gap that a date asks for: from event 0, or back to it.
fn asked_gap(d: Date) -> Gap
    ensures { result ≡ asked d }
{
    let (left, reached, days) = match d.bound {
        Bound::Least => (0, d.event, i64::from(d.day)),
        Bound::Most => (d.event, 0, -i64::from(d.day)),
    };
    Gap {
        left,
        reached,
        days,
    }
}

/// How many date places a layer adds over so many places.
fn room_over(places: usize) -> usize
    ensures { result ≡ added places }
{
    DATES.min(PLACES.saturating_sub(places))
}

/// Whether a date names an event from 1 to `events` and a day from 0 to 99,999.
fn in_range(events: usize, d: Date) -> bool
    ensures { result ≡ date_in_range events d }
{
    is_within(d.event, events) && d.day <= LAST_DAY
}

impl<B: Book> Dated<B> {
    /// Lays a new date layer over a book: the date places that it adds are empty.
    pub fn over(below: B) -> Dated<B>
        ensures after { over B.Book.meaning result ≡ hears (B.Book.meaning below) layering }
        ensures past { InStep (B.Book.meaning below) (over B.Book.meaning result) layering }
    {
        Dated {
            below,
            own: Table::new(),
        }
    }
}
