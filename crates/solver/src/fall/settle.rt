//! Sweeps until the times are at rest.

ghost use Rattle.std.specs.Prelude.{◌≤◌};
ghost use Rattle.network.specs.Schedules.{greatest};
ghost use Rattle.solver.specs.Rising.{time_at};
ghost use Rattle.solver.specs.Falling.{Above, Fallen};

use crate::arcs::Arcs;
use crate::fall::Fall;
use crate::order::{Order, owed_after};

impl Fall {
    /// Lowers times until every arc is met. The order is only a hint: the sweep that changes nothing goes over every arc.
    pub(crate) fn settle(&mut self, arcs: &Arcs, order: &Order)
        requires above { Above arcs.now (time_at self.old.times) }
        requires bound { greatest (time_at self.old.times) arcs.now.events ≤ 3000000000 }
        ensures { Fallen arcs.now self.old.times self.new.times }
    {
        let mut passes = arcs.events + 1;
        loop {
            self.pull(arcs, order.hinted_in(arcs, passes));
            if !self.sweep(arcs) {
                return;
            }
            passes = owed_after(passes);
        }
    }
}
