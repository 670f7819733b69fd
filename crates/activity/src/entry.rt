//! What a line of the activity book can hold. Any number can stand here: the book judges.

ghost use Rattle.std.specs.Prelude.{◌≡◌};
ghost use Rattle.activity.specs.Activities.{day_count, longest_pause, activity_in_range};
ghost use Rattle.activity.specs.Relations.{lag_in_range};

use book::date::Bound;

/// How much work an activity is: days, or hours at 8 to the day.
#[derive(Clone, Copy, PartialEq, Eq, Debug)]
pub enum Work {
    Days(u32),
    Hours(u32),
}

/// Whether an activity runs without a break or may pause.
#[derive(Clone, Copy, PartialEq, Eq, Debug)]
pub enum Running {
    Whole,
    Broken,
}

/// An activity, with a start and a finish.
#[derive(Clone, Copy, PartialEq, Eq, Debug)]
pub struct Activity {
    pub work: Work,
    pub running: Running,
}

/// Which ends of two activities a relation ties: S is a start, F is a finish.
#[derive(Clone, Copy, PartialEq, Eq, Debug)]
pub enum Kind {
    FS,
    SS,
    FF,
    SF,
}

/// Asks that the end of the second activity follow that of the first by at least, or at most, `lag` days.
#[derive(Clone, Copy, PartialEq, Eq, Debug)]
pub struct Relation {
    pub kind: Kind,
    pub bound: Bound,
    pub first: usize,
    pub second: usize,
    pub lag: i32,
}

/// What stands on a line.
#[derive(Clone, Copy, PartialEq, Eq, Debug)]
pub enum Entry {
    Activity(Activity),
    Relation(Relation),
}

impl Activity {
    /// The days of work, part of a day counted as a day.
    pub fn days(&self) -> u32
        ensures { result ≡ day_count self.now.work }
    {
        match self.work {
            Work::Days(days) => days,
            Work::Hours(hours) => hours.div_ceil(8),
        }
    }

    /// The most days for which the activity may pause; none where there is no limit.
    pub fn pause(&self) -> Option<u32>
        ensures { result ≡ longest_pause self.now.running }
    {
        match self.running {
            Running::Whole => Some(0),
            Running::Broken => None,
        }
    }

    /// Whether the book takes such an activity: at most 9,999 days, or 79,992 hours.
    pub fn in_range(&self) -> bool
        ensures { result ≡ activity_in_range self.now }
    {
        match self.work {
            Work::Days(days) => days <= 9_999,
            Work::Hours(hours) => hours <= 79_992,
        }
    }
}

impl Relation {
    /// Whether the lag is one that the book takes: at most 9,999 days either way.
    pub fn lag_in_range(&self) -> bool
        ensures { result ≡ lag_in_range self.now.lag }
    {
        (-9_999..=9_999).contains(&self.lag)
    }
}
