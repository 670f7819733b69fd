//! A look for a ring among the arcs that last raised each event.

ghost use Rattle.std.specs.Prelude.{◌≡◌, ℕ, ◌+◌, ◌<◌, ◌≤◌, length};
ghost use Rattle.solver.specs.Rising.{time_at};
ghost use Rattle.solver.specs.Walks.{Risen, AllRooted, Walked, Looked};

use crate::arcs::Arcs;
use crate::rise::Rise;

impl Rise {
    /// Goes from event `e` along the parents, marking each event, until there is none or one is marked:
    /// a mark of this walk means a ring.
    fn walk(&self, arcs: &Arcs, marks: &mut [u16; 1024], e: usize) -> Option<usize>
        requires risen { Risen arcs.now self.now }
        requires inside { e ≤ arcs.now.events }
        requires long { length marks.old ≡ 1024 }
        requires ids { (x : ℕ) → time_at marks.old x < e + 1 }
        requires rooted { AllRooted arcs.now (time_at self.now.times) (time_at self.now.parents) 102398976 marks.old }
        ensures found { Walked arcs.now self.now marks.old marks.new e result }
        ensures size { length marks.new ≡ 1024 }
    {
        let own = (e + 1) as u16;
        let mut at = e;
        // A mark is the number of a walk, or 0 for none: an Option takes twice the stack.
        // The walk follows parents, so there is no index to go over.
        while marks[at] == 0 {
            marks[at] = own;
            let Some(k) = self.parent(at) else {
                return None;
            };
            at = usize::from(arcs.arcs[k].left);
        }
        if marks[at] == own { Some(at) } else { None }
    }

    /// An event on a ring among the parents; nothing where every event leads back to one that was never raised.
    pub(crate) fn look(&self, arcs: &Arcs) -> Option<usize>
        requires { Risen arcs.now self.now }
        ensures { Looked arcs.now self.now result }
    {
        let mut marks = [0; 1024];
        // `find_map` was tried: its closure has to repeat the clauses of `walk` about the marks, so it is no plainer.
        for e in 0..=arcs.events {
            if let Some(r) = self.walk(arcs, &mut marks, e) {
                return Some(r);
            }
        }
        None
    }
}
