//! Readings of issued plans.

use activity::ActivityBook;
use activity::entry::{Activity, Entry, Running, Work};
use book::date::{Bound, Date};
use book::refusal::{Layer, Refusal, Refused};
use book::traits::Book;
use dates::layer::Dated;
use network::gap::{Gap, Step};
use plan::open::OpenPlan;

// Words of this crate for its own cases: a crate that lends such words to every test and program would be no plainer.

fn whole(days: u32) -> Entry {
    Entry::Activity(Activity {
        work: Work::Days(days),
        running: Running::Whole,
    })
}

fn refused(why: Refusal, place: usize) -> Refused {
    Refused {
        why,
        layer: Layer::Plan,
        place,
    }
}

/// One whole activity of so many days that has to finish by day 3.
fn due(days: u32) -> OpenPlan<Dated<ActivityBook>> {
    let mut plan = OpenPlan::over(Dated::over(ActivityBook::new()));
    let _ = plan.enter(1, whole(days));
    let _ = plan.date(
        1,
        Date {
            event: 2,
            bound: Bound::Most,
            day: 3,
        },
    );
    plan
}

#[test]
fn a_sound_plan(rt: HostRuntime) {
    let plan = due(2).issue();
    assert!(rt; plan.is_sound());
    assert_eq!(rt; plan.length(), Ok(2));
    assert_eq!(rt; plan.earliest(2), Ok(2));
    assert_eq!(rt; plan.latest(800), Ok(2));
    assert_eq!(rt; plan.earliest(801), Err(refused(Refusal::NoSuchEvent, 801)));
    assert_eq!(rt;
        plan.latest(usize::MAX),
        Err(refused(Refusal::NoSuchEvent, usize::MAX))
    );
    assert_eq!(rt; plan.ring_step(1), Err(refused(Refusal::NoSuchStep, 1)));
}

#[test]
fn a_contradictory_plan(rt: HostRuntime) {
    let plan = due(4).issue();
    assert!(rt; !plan.is_sound());
    assert_eq!(rt; plan.length(), Err(refused(Refusal::Contradictory, 0)));
    assert_eq!(rt;
        plan.earliest(800),
        Err(refused(Refusal::Contradictory, 800))
    );
    assert_eq!(rt; plan.latest(801), Err(refused(Refusal::NoSuchEvent, 801)));
    assert_eq!(rt; plan.ring_step(0), Err(refused(Refusal::NoSuchStep, 0)));
    assert_eq!(rt;
        plan.ring_step(1),
        Ok(Step {
            place: 0,
            gap: Gap {
                left: 0,
                reached: 1,
                days: 0,
            },
        })
    );
    assert_eq!(rt;
        plan.ring_step(3),
        Ok(Step {
            place: 801,
            gap: Gap {
                left: 2,
                reached: 0,
                days: -3,
            },
        })
    );
    assert_eq!(rt; plan.ring_step(4), Err(refused(Refusal::NoSuchStep, 4)));
}

#[test]
fn issued_again(rt: HostRuntime) {
    let mut open = due(4).issue().reopen();
    assert!(rt; open.book().line(1).is_some());
    assert_eq!(rt; open.alter(1, whole(1)), Ok(()));
    let again = open.issue();
    assert_eq!(rt; again.length(), Ok(1));
    assert_eq!(rt; again.latest(1), Ok(0));
}
