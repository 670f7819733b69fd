//! The gaps that an entry puts into the two places of its line.

ghost use Rattle.std.specs.Prelude.{◌≡◌, ◌<◌, ◌≤◌};
ghost use Rattle.book.specs.Rules.{within};
ghost use Rattle.activity.specs.Activities.{runs_for, ends_by, start_of, finish_of};
ghost use Rattle.activity.specs.Relations.{first_event, second_event, follows};
ghost use Rattle.activity.specs.Rule.{relation_in_range};

use crate::entry::{Activity, Kind, Relation};
use book::date::Bound;
use book::range::is_within;
use network::gap::Gap;
use table::LINES;

// That a line is at most 400 bounds twice its number. A type for lines would be made and taken apart at each call of
// `Lines`, which numbers them as every book does, and say no more than the clause.

/// The event at which the activity on a line starts.
fn start_of(p: usize) -> usize
    requires { p ≤ 400 }
    ensures { result ≡ start_of p }
{
    (2 * p).saturating_sub(1)
}

/// The event at which the activity on a line finishes.
fn finish_of(p: usize) -> usize
    requires { p ≤ 400 }
    ensures { result ≡ finish_of p }
{
    2 * p
}

/// The finish comes at least the activity's days after the start.
pub(crate) fn runs_for(p: usize, a: Activity) -> Gap
    requires { p ≤ 400 }
    ensures { result ≡ runs_for p a }
{
    Gap {
        left: start_of(p),
        reached: finish_of(p),
        days: i64::from(a.days()),
    }
}

/// The finish comes no later than the activity's days and its longest pause after the start.
pub(crate) fn ends_by(p: usize, a: Activity) -> Option<Gap>
    requires { p ≤ 400 }
    ensures { result ≡ ends_by p a }
{
    let pause = a.pause()?;
    Some(Gap {
        left: finish_of(p),
        reached: start_of(p),
        days: -(i64::from(a.days()) + i64::from(pause)),
    })
}

/// The event of the first activity that a relation ties: the kind's first letter says which.
// One function for both letters would take the letter as a parameter, and tell the same cases apart.
fn first_event(kind: Kind, a: usize) -> usize
    requires { a ≤ 400 }
    ensures { result ≡ first_event kind a }
{
    match kind {
        Kind::FS | Kind::FF => finish_of(a),
        Kind::SS | Kind::SF => start_of(a),
    }
}

/// The event of the second activity: the kind's second letter says which.
fn second_event(kind: Kind, b: usize) -> usize
    requires { b ≤ 400 }
    ensures { result ≡ second_event kind b }
{
    match kind {
        Kind::FS | Kind::SS => start_of(b),
        Kind::FF | Kind::SF => finish_of(b),
    }
}

/// At least `lag` days lead from `u` to `v`; at most `lag` days lead back from `v` to `u`.
fn following(bound: Bound, u: usize, v: usize, lag: i32) -> Gap
    ensures { result ≡ follows bound u v lag }
{
    let (left, reached, days) = match bound {
        Bound::Least => (u, v, i64::from(lag)),
        Bound::Most => (v, u, -i64::from(lag)),
    };
    Gap {
        left,
        reached,
        days,
    }
}

/// Whether the lag is within range and both lines are there.
pub(crate) fn relation_in_range(r: Relation) -> bool
    ensures { result ≡ relation_in_range r }
{
    r.lag_in_range() && (is_within(r.first, LINES) && is_within(r.second, LINES))
}

/// The gap that a relation between two lines asks for.
pub(crate) fn relating(r: Relation) -> Gap
    requires first { r.first ≤ 400 }
    requires second { r.second ≤ 400 }
    ensures { result ≡ follows r.bound (first_event r.kind r.first) (second_event r.kind r.second) r.lag }
{
    following(
        r.bound,
        first_event(r.kind, r.first),
        second_event(r.kind, r.second),
        r.lag,
    )
}
