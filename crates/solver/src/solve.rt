//! The solver, over any network.

ghost use Rattle.std.specs.Prelude.{◌≡◌, ◌≤◌};
ghost use Rattle.network.specs.Meanings.{Meaning};
ghost use Rattle.network.specs.Schedules.{greatest};
ghost use Rattle.solver.specs.Copies.{GatheredFrom};
ghost use Rattle.solver.specs.Rising.{time_at, Keeps, Rising};
ghost use Rattle.solver.specs.Solutions.{Solved};

use crate::arcs::Arcs;
use crate::order::Order;
use crate::ring::Ring;
use crate::rise::Rise;
use crate::times::{Times, windows_of};
use network::network::Network;

/// What is found of a network whose earliest times are at rest: its windows.
fn at_rest(arcs: &Arcs, order: &Order, rise: &Rise) -> Result<Times, Ring>
    requires rising { Rising arcs.now (λ _. 0) (time_at rise.now.times) (time_at rise.now.parents) }
    requires first { time_at rise.now.times 0 ≡ 0 }
    requires bound { greatest (time_at rise.now.times) arcs.now.events ≤ 204800000 }
    requires keeps { Keeps arcs.now (time_at rise.now.times) }
    ensures { (m : Meaning) → GatheredFrom m arcs.now → Solved m result }
{
    Ok(windows_of(arcs, order, rise))
}

/// The earliest and the latest times of a network and its length; or, as the error, a ring that shows that it has no schedule.
#[inline(never)]
pub fn solve<N: Network>(network: &N) -> Result<Times, Ring>
    ensures { Solved (N.Network.network network.now) result }
{
    let mut arcs = Arcs::none(network.events());
    arcs.take(network);
    let mut rise = Rise::begin();
    let mut order = Order::none();
    order.follow(&arcs);
    match rise.settle(&arcs, &order) {
        Ok(()) => at_rest(&arcs, &order, &rise),
        Err(r) => Err(rise.ring_from(&arcs, r.event)),
    }
}
