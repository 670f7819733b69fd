//! One list with a call of every kind, carried out and refused, in either state of the plan.

use crate::activities::{activity, date, relation};
use crate::show::print_plan;
use activity::ActivityBook;
use activity::entry::{Entry, Kind, Running};
use book::date::Bound;
use dates::layer::Dated;
use play::call::PlanCall;
use play::play::play;
use sheet::sheet::sheet;
use std::io;

/// Every kind of call. Refused are the second entering of line 1, the strikes of lines 9 and 1, the date of an event that
/// is not there, the second clearing, a time of an event that is not there, and a step of a ring where there is none.
fn every_kind() -> [PlanCall<Entry>; 24] {
    [
        PlanCall::Enter(1, activity(3, Running::Whole)),
        PlanCall::Enter(1, activity(9, Running::Whole)),
        PlanCall::Enter(2, activity(4, Running::Broken)),
        PlanCall::IsSound,
        PlanCall::Enter(3, relation(Kind::FS, Bound::Least, 1, 2, 1)),
        PlanCall::Latest(2),
        PlanCall::Latest(801),
        PlanCall::Alter(2, activity(5, Running::Broken)),
        PlanCall::Strike(9),
        PlanCall::Strike(1),
        PlanCall::Issue,
        PlanCall::Issue,
        PlanCall::Date(1, date(1, Bound::Least, 2)),
        PlanCall::Date(2, date(4, Bound::Most, 4)),
        PlanCall::RingStep(1),
        PlanCall::Date(3, date(801, Bound::Most, 4)),
        PlanCall::Clear(2),
        PlanCall::Clear(2),
        PlanCall::RingStep(1),
        PlanCall::Reopen,
        PlanCall::Reopen,
        PlanCall::Earliest(4),
        PlanCall::Length,
        PlanCall::Sheet,
    ]
}

/// Prints what comes of the list, and whether the sheet that it asks for at its end is the plan's.
pub fn run(rt: &HostRuntime) -> io::Result<()> {
    println!(rt; "a call of every kind")?;
    let mut asked = [0; 512];
    let plan = play(Dated::over(ActivityBook::new()), &every_kind(), &mut asked);
    print_plan(rt, &plan)?;
    let mut again = [0; 512];
    let _ = sheet(&plan, &mut again);
    let same = asked == again;
    println!(rt; "the sheet asked for in the list is this one: {same}")
}
