//! An order of the arcs that follows them from event to event, so that few sweeps are needed.
//! It is only a hint: nothing is known of it, and no answer rests on it.

ghost use Rattle.std.specs.Prelude.{◌*◌, ◌≤◌, length};

use crate::arcs::Arcs;
use crate::order::lists::{ArcLists, leaving, write};
use crate::order::parts::{Parts, parts_both_ways};

mod lists;
mod parts;
mod visit;

/// Indices of arcs, in the order in which to look at them. An arc stands in it once or twice.
// A table of fixed size with its length beside: the engine has no heap, and it is filled where it stands.
#[derive(Drop)]
pub(crate) struct Order {
    pub indices: [u16; 8192],
    pub count: usize,
}

impl Order {
    /// No arcs yet.
    pub(crate) fn none() -> Order {
        Order {
            indices: [0; 8192],
            count: 0,
        }
    }

    /// Adds the arcs that leave the events of a part.
    fn add_part(&mut self, leaving: &ArcLists, parts: &Parts, part: usize) {
        for event in parts.members(part) {
            for arc in leaving.lists.members(event) {
                write(&mut self.indices, self.count, arc);
                self.count = self.count.saturating_add(1);
            }
        }
    }

    /// The arcs to look at in this order before the sweep that goes over every arc, where so many passes can still be owed:
    /// at most twice as many as there are arcs. A pass by the hint counts as two, since an arc can stand in the order twice;
    /// where only two passes are left, sweeps alone are made.
    pub(crate) fn hinted_in(&self, arcs: &Arcs, passes: usize) -> &[u16]
        ensures { length result.now ≤ 2 * arcs.now.count }
    {
        let count = if passes > 2 {
            self.count.min(2 * arcs.count)
        } else {
            0
        };
        self.indices.get(..count).unwrap_or(&[])
    }

    /// Adds the arcs part by part, each part after those that lead to it. Those of a part of more than one event are
    /// added twice, so that a whole activity, whose start and finish are tied both ways, is at rest when it is left, and
    /// a larger part is gone through there and back.
    // Not inlined, so that its tables are on the stack for its own time alone.
    #[inline(never)]
    pub(crate) fn follow(&mut self, arcs: &Arcs) {
        let leaving = leaving(arcs);
        let (there, back) = parts_both_ways(&leaving);
        for part in 0..=arcs.events {
            self.add_part(&leaving, &there, part);
            if there.has_many(part) {
                self.add_part(&leaving, &back, part);
            }
        }
    }
}

/// How many passes can be owed after a round. Each part comes after those that lead to it, and twice where it has more
/// than one event; so a pass by the hint carries times along two gaps of any chain of gaps, as two sweeps do. Hence no
/// more than N + 1 passes are made in all.
pub(crate) fn owed_after(passes: usize) -> usize {
    if passes > 2 {
        passes - 3
    } else {
        passes.saturating_sub(1)
    }
}
