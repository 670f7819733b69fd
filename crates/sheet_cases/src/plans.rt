//! Sound plans: lines 1 and 400, lines of relations in between, the largest numbers, arrows.

use crate::buffers::print_sheet;
use crate::entries::{activity, arrow, date, follows};
use activity::ActivityBook;
use activity::entry::Running;
use arrow::ArrowBook;
use book::date::Bound;
use book::traits::Book;
use dates::layer::Dated;
use plan::open::OpenPlan;
use std::io;

/// Activities on the first line and the last, with relations beside them.
fn ends_of_the_book() -> ActivityBook {
    let mut book = ActivityBook::new();
    let _ = book.enter(1, activity(3, Running::Whole));
    let _ = book.enter(400, activity(4, Running::Broken));
    let _ = book.enter(2, follows(1, 400, 2));
    let _ = book.enter(399, activity(1, Running::Whole));
    let _ = book.enter(398, follows(399, 400, 0));
    book
}

/// The latest day of all, and the longest activity after it.
fn largest() -> Dated<ActivityBook> {
    let mut book = Dated::over(ActivityBook::new());
    let _ = book.enter(1, activity(9_999, Running::Whole));
    let _ = book.enter(2, activity(0, Running::Broken));
    let _ = book.date(64, date(1, Bound::Least, 99_999));
    book
}

/// Two ways from one node to another, and a date on the last.
fn arrows() -> Dated<ArrowBook> {
    let mut book = Dated::over(ArrowBook::new());
    let _ = book.enter(1, arrow(1, 2, 5));
    let _ = book.enter(101, arrow(1, 3, 1));
    let _ = book.enter(201, arrow(2, 4, 0));
    let _ = book.enter(301, arrow(3, 4, 2));
    let _ = book.date(1, date(4, Bound::Least, 8));
    book
}

/// Prints each.
pub fn run(rt: &HostRuntime) -> io::Result<()> {
    println!(rt; "nothing entered")?;
    print_sheet(rt, &OpenPlan::over(ActivityBook::new()).issue())?;
    println!(rt; "no arrow entered")?;
    print_sheet(rt, &OpenPlan::over(ArrowBook::new()).issue())?;
    println!(rt; "the ends of the book")?;
    print_sheet(rt, &OpenPlan::over(ends_of_the_book()).issue())?;
    println!(rt; "the largest numbers")?;
    print_sheet(rt, &OpenPlan::over(largest()).issue())?;
    println!(rt; "arrows")?;
    print_sheet(rt, &OpenPlan::over(arrows()).issue())
}
