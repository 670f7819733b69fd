//! What a plan tells of its times, or 0 where it tells none.

ghost use Rattle.std.specs.Prelude.{◌≡◌};
ghost use Rattle.sheet.specs.Rows.{earliest_told, latest_told, length_told};

// 0 and not an Option: the rows are of a plan that has times, and a row's words have a meaning for any plan.

use book::traits::Book;
use plan::issued::IssuedPlan;

/// The earliest time of an event, or 0 where the plan tells none.
pub(crate) fn earliest_told<B: Book>(plan: &IssuedPlan<B>, event: usize) -> u32
    ensures { result ≡ earliest_told plan.now.outcome event }
{
    plan.earliest(event).unwrap_or(0)
}

/// The latest time of an event, or 0 where the plan tells none.
pub(crate) fn latest_told<B: Book>(plan: &IssuedPlan<B>, event: usize) -> u32
    ensures { result ≡ latest_told plan.now.outcome event }
{
    plan.latest(event).unwrap_or(0)
}

/// The length, or 0 where the plan tells none.
pub(crate) fn length_told<B: Book>(plan: &IssuedPlan<B>) -> u32
    ensures { result ≡ length_told plan.now.outcome }
{
    plan.length().unwrap_or(0)
}
