//! One pass over the arcs.

ghost use Rattle.std.specs.Prelude.{◌≡◌, ◌+◌, ◌-◌, ◌*◌, ◌^◌, ◌<◌, ◌≤◌, length, if◌then◌else◌, nat_lt, slice_set};
ghost use Rattle.network.specs.Schedules.{greatest};
ghost use Rattle.solver.specs.Rising.{time_at, Moved, Swept};

use crate::arc::Arc;
use crate::arcs::Arcs;
use crate::rise::Rise;

impl Rise {
    /// Raises the event that an arc reaches, where the arc is not met.
    fn raise(&mut self, k: usize, a: Arc) -> bool
        requires left { a.left < 1024 }
        requires reached { a.reached < 1024 }
        requires index { k < 4096 }
        requires up { time_at self.old.times a.left + a.up < 2 ^ 32 }
        requires down { time_at self.old.times a.reached + a.down < 2 ^ 32 }
        ensures told { result ≡ nat_lt (time_at self.old.times a.reached + a.down) (time_at self.old.times a.left + a.up) }
        ensures times { self.new.times ≡ (if result then slice_set self.old.times a.reached (time_at self.old.times a.left + a.up - a.down) else self.old.times) }
        ensures parents { self.new.parents ≡ (if result then slice_set self.old.parents a.reached (k + 1) else self.old.parents) }
    {
        let reached = usize::from(a.reached);
        let asked = self.times[usize::from(a.left)] + a.up;
        if self.times[reached] + a.down < asked {
            self.times[reached] = asked - a.down;
            self.parents[reached] = (k + 1) as u16;
            return true;
        }
        false
    }

    /// Goes over the arcs in a hinted order.
    pub(crate) fn push(&mut self, arcs: &Arcs, hinted: &[u16])
        requires few { length hinted.now ≤ 2 * arcs.now.count }
        requires bound { greatest (time_at self.old.times) arcs.now.events ≤ 3000000000 }
        ensures { Moved arcs.now self.old self.new (length hinted.now) }
    {
        for hint in hinted {
            let k = usize::from(*hint);
            if let Some(arc) = arcs.get(k) {
                let _ = self.raise(k, arc);
            }
        }
    }

    /// Goes over every arc once, and says whether it raised an event.
    pub(crate) fn sweep(&mut self, arcs: &Arcs) -> bool
        requires { greatest (time_at self.old.times) arcs.now.events ≤ 3000000000 }
        ensures { Swept arcs.now self.old self.new arcs.now.count result }
    {
        let mut changed = false;
        for (k, arc) in arcs.all().iter().enumerate() {
            // `|=` has no branch, so every arc is looked at.
            changed |= self.raise(k, *arc);
        }
        changed
    }
}
