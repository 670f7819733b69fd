//! Plans that no schedule meets: a ring through the book, a date and the floor, and one of two dates on one event.

use crate::buffers::print_sheet;
use crate::entries::{activity, date};
use activity::ActivityBook;
use activity::entry::Running;
use book::date::{Bound, Date};
use book::traits::Book;
use dates::layer::Dated;
use plan::open::OpenPlan;
use std::io;

/// One whole activity of 3 days under two date layers.
fn dated(dates: &[(usize, Date)]) -> Dated<Dated<ActivityBook>> {
    let mut book = Dated::over(Dated::over(ActivityBook::new()));
    let _ = book.enter(1, activity(3, Running::Whole));
    for (place, date) in dates {
        let _ = book.date(*place, *date);
    }
    book
}

/// Prints each.
pub fn run(rt: &HostRuntime) -> io::Result<()> {
    println!(rt; "three days to be finished by day 2")?;
    let late = [(65, date(2, Bound::Most, 2))];
    print_sheet(rt, &OpenPlan::over(dated(&late)).issue())?;
    println!(rt; "from day 5 on, and by day 4")?;
    let crossed = [
        (1, date(1, Bound::Least, 5)),
        (128, date(1, Bound::Most, 4)),
    ];
    print_sheet(rt, &OpenPlan::over(dated(&crossed)).issue())
}
