//! Five activities with seven relations: whole, broken, and changed after they were issued.

use crate::show::print_plan;
use activity::ActivityBook;
use activity::entry::{Activity, Entry, Kind, Relation, Running, Work};
use book::date::{Bound, Date};
use book::traits::Book;
use play::call::PlanCall;
use play::play::play;
use std::io;

// Words of this crate for its own cases: a crate that lends such words to every test and program would be no plainer.

/// An activity of so many days.
pub fn activity(days: u32, running: Running) -> Entry {
    Entry::Activity(Activity {
        work: Work::Days(days),
        running,
    })
}

/// A relation between two activities.
pub fn relation(kind: Kind, bound: Bound, first: usize, second: usize, lag: i32) -> Entry {
    Entry::Relation(Relation {
        kind,
        bound,
        first,
        second,
        lag,
    })
}

/// A day for an event.
pub fn date(event: usize, bound: Bound, day: u32) -> Date {
    Date { event, bound, day }
}

/// Activities of 3, 4, 5, 2 and 6 days, and seven relations between them. The plan is read in between, which issues
/// it, and the next entering reopens it.
fn five(running: Running) -> [PlanCall<Entry>; 15] {
    [
        PlanCall::Enter(1, activity(3, running)),
        PlanCall::Enter(2, activity(4, running)),
        PlanCall::Enter(3, activity(5, running)),
        PlanCall::Enter(4, activity(2, running)),
        PlanCall::Enter(5, activity(6, running)),
        PlanCall::Issue,
        PlanCall::Length,
        PlanCall::Reopen,
        PlanCall::Enter(6, relation(Kind::FS, Bound::Least, 1, 2, 0)),
        PlanCall::Enter(7, relation(Kind::FS, Bound::Least, 1, 3, 3)),
        PlanCall::Enter(8, relation(Kind::SS, Bound::Least, 2, 4, 5)),
        PlanCall::Enter(9, relation(Kind::FF, Bound::Least, 2, 4, 5)),
        PlanCall::Enter(10, relation(Kind::SS, Bound::Most, 3, 5, 5)),
        PlanCall::Enter(11, relation(Kind::SS, Bound::Least, 4, 5, 4)),
        PlanCall::Enter(12, relation(Kind::FF, Bound::Most, 4, 5, 12)),
    ]
}

/// Prints the plan of the five, whole and broken; then the broken one reopened, with its second activity altered.
pub fn run(rt: &HostRuntime) -> io::Result<()> {
    println!(rt; "nothing entered")?;
    print_plan(rt, &play(ActivityBook::new(), &[], &mut []))?;
    println!(rt; "five activities, whole")?;
    print_plan(
        rt,
        &play(ActivityBook::new(), &five(Running::Whole), &mut []),
    )?;
    println!(rt; "five activities, broken")?;
    let broken = play(ActivityBook::new(), &five(Running::Broken), &mut []);
    print_plan(rt, &broken)?;
    println!(rt; "reopened, the second of 9 days, issued again")?;
    let mut open = broken.reopen();
    let _ = open.alter(2, activity(9, Running::Broken));
    print_plan(rt, &open.issue())
}
