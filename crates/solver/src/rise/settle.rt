//! Sweeps until the times are at rest, or there is a ring.

ghost use Rattle.std.specs.Prelude.{◌≤◌};
ghost use Rattle.network.specs.Schedules.{greatest};
ghost use Rattle.solver.specs.Rising.{time_at};
ghost use Rattle.solver.specs.Walks.{Risen};
ghost use Rattle.solver.specs.Outcomes.{Outcome};

use crate::arcs::Arcs;
use crate::order::{Order, owed_after};
use crate::rise::Rise;

/// The event from which a ring is read: it is on a ring of parents, or it is event 0, and raised.
#[derive(Clone, Copy)]
pub(crate) struct RingFrom {
    pub event: usize,
}

impl Rise {
    /// Raises times until every arc is met. Stops where no times meet them all: the error says where there is a ring.
    /// The order is only a hint: the sweep that changes nothing goes over every arc.
    pub(crate) fn settle(&mut self, arcs: &Arcs, order: &Order) -> Result<(), RingFrom>
        requires risen { Risen arcs.now self.old }
        requires bound { greatest (time_at self.old.times) arcs.now.events ≤ 204800000 }
        ensures { Outcome arcs.now self.old self.new result }
    {
        let mut passes = arcs.events + 1;
        loop {
            self.push(arcs, order.hinted_in(arcs, passes));
            let changed = self.sweep(arcs);
            if let Some(event) = self.look(arcs) {
                return Err(RingFrom { event });
            }
            if self.times[0] > 0 {
                return Err(RingFrom { event: 0 });
            }
            if !changed {
                return Ok(());
            }
            passes = owed_after(passes);
        }
    }
}
