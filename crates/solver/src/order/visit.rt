//! A visit of the events, from one to the next by arcs.

use crate::arc::Arc;
use crate::arcs::Arcs;
use crate::order::lists::{ArcLists, at, link, write, write_link};

/// A visit along the arcs of a list for each event: how far the list of each event is followed, which events are seen
/// and with what mark, which are on the way and which are left.
// Tables of fixed size, two with their lengths beside: the engine has no heap.
// 0 stands for none in `cursors` and `seen`: an Option takes twice the stack.
#[derive(Drop)]
pub(crate) struct Visit<'a> {
    listed: &'a ArcLists<'a>,
    cursors: [u16; 1024],
    pub seen: [u16; 1024],
    way: [u16; 1024],
    depth: usize,
    left: [u16; 1024],
    done: usize,
}

/// The event at the other end of an arc.
fn other_end(arc: Arc, event: usize) -> usize {
    let left = usize::from(arc.left);
    if left == event {
        usize::from(arc.reached)
    } else {
        left
    }
}

impl<'a> Visit<'a> {
    /// No event is seen yet, and each list is at its beginning.
    pub(crate) fn over(listed: &'a ArcLists<'a>) -> Visit<'a> {
        Visit {
            listed,
            cursors: listed.lists.heads,
            seen: [0; 1024],
            way: [0; 1024],
            depth: 0,
            left: [0; 1024],
            done: 0,
        }
    }

    /// Whether an event is seen.
    pub(crate) fn has_seen(&self, event: usize) -> bool {
        link(&self.seen, event).is_some()
    }

    /// Marks an event as seen, and goes on from it.
    fn enter(&mut self, event: usize, mark: usize) {
        write_link(&mut self.seen, event, Some(mark));
        write(&mut self.way, self.depth, event);
        self.depth = self.depth.saturating_add(1);
    }

    /// Goes back from an event.
    fn leave(&mut self, event: usize) {
        write(&mut self.left, self.done, event);
        self.done = self.done.saturating_add(1);
        self.depth = self.depth.saturating_sub(1);
    }

    /// The last event on the way.
    fn here(&self) -> Option<usize> {
        at(&self.way, self.depth.checked_sub(1)?)
    }

    /// Takes up the next arc of an event.
    fn take_arc(&mut self, event: usize) -> Option<Arc> {
        let k = link(&self.cursors, event)?;
        write_link(&mut self.cursors, event, link(&self.listed.lists.nexts, k));
        self.listed.arcs.get(k)
    }

    /// Visits the events that arcs lead to from an event, where they are not seen yet. Marks each as it is come upon, and
    /// lists each as it is left.
    pub(crate) fn go(&mut self, first: usize, mark: usize) {
        self.enter(first, mark);
        // A count, so that the visit is known to end: every step leaves an event or takes up an arc.
        for _ in 0..5_120 {
            let Some(here) = self.here() else {
                break;
            };
            match self.take_arc(here) {
                None => self.leave(here),
                Some(arc) => {
                    let next = other_end(arc, here);
                    if !self.has_seen(next) {
                        self.enter(next, mark);
                    }
                }
            }
        }
    }
}

/// The numbers of the events.
pub(crate) fn by_number() -> [u16; 1024] {
    std::array::from_fn(|event| event as u16)
}

/// The events the other way round.
pub(crate) fn turned(arcs: &Arcs, events: &[u16; 1024]) -> [u16; 1024] {
    let mut others = *events;
    others[..=arcs.events].reverse();
    others
}

/// The events, each after those to which arcs lead from it, but for arcs that lead back. The visit begins at the first of
/// `begins`, and then at each that is not seen yet.
pub(crate) fn left_in_turn(listed: &ArcLists, begins: &[u16; 1024]) -> [u16; 1024] {
    let mut visit = Visit::over(listed);
    for first in &begins[..=listed.arcs.events] {
        let first = usize::from(*first);
        if !visit.has_seen(first) {
            visit.go(first, 0);
        }
    }
    visit.left
}
