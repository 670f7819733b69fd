//! Plans that no schedule meets, by their lags and by their dates.

use crate::activities::{activity, date, relation};
use crate::show::print_plan;
use activity::ActivityBook;
use activity::entry::{Entry, Kind, Running};
use book::date::Bound;
use book::traits::Book;
use dates::layer::Dated;
use play::call::PlanCall;
use play::play::play;
use std::io;

/// Two activities, the second at least 5 days after the first and at most 4.
fn lagged() -> [PlanCall<Entry>; 5] {
    [
        PlanCall::Enter(1, activity(3, Running::Whole)),
        PlanCall::Enter(2, activity(4, Running::Whole)),
        PlanCall::Enter(3, relation(Kind::FS, Bound::Least, 1, 2, 5)),
        PlanCall::Enter(4, relation(Kind::FS, Bound::Most, 1, 2, 4)),
        PlanCall::RingStep(1),
    ]
}

/// An activity of 3 days that shall be finished by day 2.
fn dated() -> [PlanCall<Entry>; 2] {
    [
        PlanCall::Enter(1, activity(3, Running::Whole)),
        PlanCall::Date(1, date(2, Bound::Most, 2)),
    ]
}

/// Prints the rings, and then what mends them.
pub fn run(rt: &HostRuntime) -> io::Result<()> {
    println!(rt; "a lag of at least 5 days and at most 4")?;
    let lags = play(ActivityBook::new(), &lagged(), &mut []);
    print_plan(rt, &lags)?;
    println!(rt; "reopened, at most 5, issued again")?;
    let mut open = lags.reopen();
    let _ = open.alter(4, relation(Kind::FS, Bound::Most, 1, 2, 5));
    print_plan(rt, &open.issue())?;
    println!(rt; "three days to be finished by day 2")?;
    let dates = play(Dated::over(ActivityBook::new()), &dated(), &mut []);
    print_plan(rt, &dates)?;
    println!(rt; "reopened, the date cleared, issued again")?;
    let mut open = dates.reopen();
    let _ = open.clear(1);
    print_plan(rt, &open.issue())
}
