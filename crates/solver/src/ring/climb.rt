//! A ring read off the arcs that last raised each event.

ghost use Rattle.std.specs.Prelude.{◌≡◌, ◌≤◌, length};
ghost use Rattle.network.specs.Meanings.{Meaning};
ghost use Rattle.network.specs.Rings.{Contradictory};
ghost use Rattle.solver.specs.Copies.{GatheredFrom};
ghost use Rattle.solver.specs.Rising.{time_at, Rising};
ghost use Rattle.solver.specs.RingSteps.{step_of, floor_to, ring_steps, Ends};

use crate::arc::Arc;
use crate::arcs::Arcs;
use crate::ring::Ring;
use crate::rise::Rise;
use network::gap::{Gap, Step};

/// An arc as a step.
fn step_of(a: Arc) -> Step
    ensures { result ≡ step_of a }
{
    Step {
        place: a.place as usize,
        gap: Gap {
            left: usize::from(a.left),
            reached: usize::from(a.reached),
            days: i64::from(a.up) - i64::from(a.down),
        },
    }
}

/// The floor to an event.
fn floor_to(event: usize) -> Step
    ensures { result ≡ floor_to event }
{
    Step {
        place: 0,
        gap: Gap {
            left: 0,
            reached: event,
            days: 0,
        },
    }
}

impl Rise {
    /// The ring that comes of going from event `r` along the parents: back to `r`, or to an event that was never
    /// raised, which the floor reaches.
    #[inline(never)]
    pub(crate) fn ring_from(&self, arcs: &Arcs, r: usize) -> Ring
        requires rising { Rising arcs.now (λ _. 0) (time_at self.now.times) (time_at self.now.parents) }
        requires inside { r ≤ arcs.now.events }
        requires ends { Ends arcs.now (time_at self.now.times) (time_at self.now.parents) r }
        ensures { (m : Meaning) → GatheredFrom m arcs.now → Contradictory m (ring_steps result) }
    {
        let mut steps = [floor_to(0); 1024];
        let mut at = r;
        // The index is where a step stands in the table, which is filled where it stands.
        // At most N + 1 steps are counted, so that the climb is known to end.
        for i in 0..=arcs.events {
            let Some(k) = self.parent(at) else {
                steps[i] = floor_to(at);
                return Ring {
                    steps,
                    count: i + 1,
                };
            };
            let arc = arcs.arcs[k];
            steps[i] = step_of(arc);
            at = usize::from(arc.left);
            if at == r {
                return Ring {
                    steps,
                    count: i + 1,
                };
            }
        }
        unreachable()
    }
}
