//! One pass over the arcs.

ghost use Rattle.std.specs.Prelude.{◌≡◌, ◌+◌, ◌-◌, ◌*◌, ◌^◌, ◌<◌, ◌≤◌, length, if◌then◌else◌, nat_lt, slice_set};
ghost use Rattle.network.specs.Schedules.{greatest};
ghost use Rattle.solver.specs.Rising.{time_at};
ghost use Rattle.solver.specs.Falling.{Above, Sank, Fell};

use crate::arc::Arc;
use crate::arcs::Arcs;
use crate::fall::Fall;

impl Fall {
    /// Lowers the event that an arc leaves, where the arc is not met.
    fn lower(&mut self, a: Arc) -> bool
        requires left { a.left < 1024 }
        requires reached { a.reached < 1024 }
        requires up { time_at self.old.times a.left + a.up < 2 ^ 32 }
        requires down { time_at self.old.times a.reached + a.down < 2 ^ 32 }
        requires room { a.up ≤ time_at self.old.times a.reached + a.down }
        ensures told { result ≡ nat_lt (time_at self.old.times a.reached + a.down) (time_at self.old.times a.left + a.up) }
        ensures times { self.new.times ≡ (if result then slice_set self.old.times a.left (time_at self.old.times a.reached + a.down - a.up) else self.old.times) }
    {
        let left = usize::from(a.left);
        let limit = self.times[usize::from(a.reached)] + a.down;
        if limit < self.times[left] + a.up {
            self.times[left] = limit - a.up;
            return true;
        }
        false
    }

    /// Goes over the arcs against a hinted order.
    pub(crate) fn pull(&mut self, arcs: &Arcs, hinted: &[u16])
        requires few { length hinted.now ≤ 2 * arcs.now.count }
        requires above { Above arcs.now (time_at self.old.times) }
        requires bound { greatest (time_at self.old.times) arcs.now.events ≤ 3000000000 }
        ensures { Sank arcs.now self.old.times self.new.times }
    {
        for hint in hinted.iter().rev() {
            if let Some(arc) = arcs.get(usize::from(*hint)) {
                let _ = self.lower(arc);
            }
        }
    }

    /// Goes over every arc once, and says whether it lowered an event.
    pub(crate) fn sweep(&mut self, arcs: &Arcs) -> bool
        requires above { Above arcs.now (time_at self.old.times) }
        requires bound { greatest (time_at self.old.times) arcs.now.events ≤ 3000000000 }
        ensures { Fell arcs.now self.old.times self.new.times arcs.now.count result }
    {
        let mut changed = false;
        for arc in arcs.all() {
            // `|=` has no branch, so every arc is looked at.
            changed |= self.lower(*arc);
        }
        changed
    }
}
