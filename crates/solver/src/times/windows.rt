//! The latest times that go with earliest times at rest.

ghost use Rattle.std.specs.Prelude.{◌≡◌, ℕ, ◌≤◌, length as size};
ghost use Rattle.network.specs.Meanings.{Meaning};
ghost use Rattle.network.specs.Schedules.{greatest, Sound};
ghost use Rattle.solver.specs.Copies.{GatheredFrom};
ghost use Rattle.solver.specs.Rising.{time_at, Keeps, Rising};

use crate::arcs::Arcs;
use crate::fall::Fall;
use crate::order::Order;
use crate::rise::{Rise, longest};
use crate::times::Times;

/// Every event at the length, but event 0 at 0.
fn due(length: u32) -> [u32; 1024]
    ensures long { size result ≡ 1024 }
    ensures first { time_at result 0 ≡ 0 }
    ensures others { (e : ℕ) → 1 ≤ e → e ≤ 1023 → time_at result e ≡ length }
{
    let mut times = [length; 1024];
    times[0] = 0;
    times
}

/// The windows of the events, from earliest times at rest.
pub(crate) fn windows(arcs: &Arcs, order: &Order, rise: &Rise) -> Times
    requires rising { Rising arcs.now (λ _. 0) (time_at rise.now.times) (time_at rise.now.parents) }
    requires first { time_at rise.now.times 0 ≡ 0 }
    requires bound { greatest (time_at rise.now.times) arcs.now.events ≤ 204800000 }
    requires keeps { Keeps arcs.now (time_at rise.now.times) }
    ensures events { result.events ≡ arcs.now.events }
    ensures sound { (m : Meaning) → GatheredFrom m arcs.now → Sound m (time_at result.earliest) (time_at result.latest) result.length }
{
    let earliest = rise.times;
    let length = longest(&earliest, arcs.events);
    let mut fall = Fall { times: due(length) };
    fall.settle(arcs, order);
    let latest = fall.times;
    Times {
        events: arcs.events,
        earliest,
        latest,
        length,
    }
}
