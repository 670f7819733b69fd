//! Tables of small numbers, and lists in such tables: the arcs of each event, and the events of each part.

ghost use Rattle.std.specs.Iterator.{at_most};

use crate::arc::Arc;
use crate::arcs::Arcs;

/// What stands at an index; nothing where there is no such index.
pub(crate) fn at(table: &[u16], index: usize) -> Option<usize> {
    table.get(index).map(|value| usize::from(*value))
}

/// Writes at an index, where there is one. No index of an arc or an event, counted from 1, is more than 4,096.
pub(crate) fn write(table: &mut [u16], index: usize, value: usize) {
    if let Some(place) = table.get_mut(index) {
        *place = value.min(4_096) as u16;
    }
}

/// The number that stands at an index, where numbers are counted from 1; nothing where 0 stands, or there is no such index.
pub(crate) fn link(table: &[u16], index: usize) -> Option<usize> {
    at(table, index)?.checked_sub(1)
}

/// Writes a number at an index, counted from 1, or 0 for none.
pub(crate) fn write_link(table: &mut [u16], index: usize, number: Option<usize>) {
    write(
        table,
        index,
        number.map_or(0, |value| value.saturating_add(1)),
    );
}

/// For each event, or each part, a list of numbers from 0 to N - 1: each with the next one, counted from 1, or 0 at the end.
// Lists in two tables, with 0 for none: the engine has no heap, and an Option takes twice the stack.
#[derive(Drop)]
pub(crate) struct Lists<const N: usize> {
    pub heads: [u16; 1024],
    pub nexts: [u16; N],
}

impl<const N: usize> Lists<N> {
    /// Each list without members.
    pub(crate) fn none() -> Lists<N> {
        Lists {
            heads: [0; 1024],
            nexts: [0; N],
        }
    }

    /// Puts a number at the head of a list.
    pub(crate) fn add(&mut self, list: usize, member: usize) {
        write_link(&mut self.nexts, member, link(&self.heads, list));
        write_link(&mut self.heads, list, Some(member));
    }

    /// The members of a list, the one that was put there last first.
    pub(crate) fn members(&self, list: usize) -> Members<'_, N> {
        Members {
            nexts: &self.nexts,
            cursor: link(&self.heads, list),
            left: N,
        }
    }

    /// Whether a list has more than one member.
    pub(crate) fn has_many(&self, list: usize) -> bool {
        self.members(list).nth(1).is_some()
    }
}

/// The members of a list that are still to come, at most `left`, and the next of them.
// `left` is a count, so that the iteration is known to end: nothing is known of the list itself.
#[derive(Drop)]
pub(crate) struct Members<'a, const N: usize> {
    nexts: &'a [u16],
    cursor: Option<usize>,
    left: usize,
}

impl<'a, const N: usize> Iterator for Members<'a, N> {
    type Item = usize;

    ghost remaining = { λ s. at_most s.left };

    fn next(&mut self) -> Option<usize> {
        if self.left == 0 {
            return None;
        }
        let member = self.cursor?;
        self.cursor = link(self.nexts, member);
        self.left -= 1;
        Some(member)
    }
}

/// A table of arcs, and for each event a list of some of them.
#[derive(Drop)]
pub(crate) struct ArcLists<'a> {
    pub arcs: &'a Arcs,
    pub lists: Lists<4096>,
}

/// The arcs for which there is an event, each on the list of its event.
fn listed<F: Fn(&Arc) -> Option<u16>>(arcs: &Arcs, event_of: F) -> ArcLists<'_>
    requires { F.IsAlwaysCallable event_of }
{
    let mut listed = ArcLists {
        arcs,
        lists: Lists::none(),
    };
    for (k, arc) in arcs.all().iter().enumerate() {
        if let Some(event) = event_of(arc) {
            listed.lists.add(usize::from(event), k);
        }
    }
    listed
}

/// The arcs that leave each event.
pub(crate) fn leaving(arcs: &Arcs) -> ArcLists<'_> {
    listed(arcs, |arc| Some(arc.left))
}

/// The arcs of no negative days that leave each event.
pub(crate) fn onward(arcs: &Arcs) -> ArcLists<'_> {
    listed(arcs, |arc| (arc.down == 0).then_some(arc.left))
}

/// The arcs that reach each event but event 0. Event 0 stays at 0, so that what reaches it leads no further.
pub(crate) fn reaching(arcs: &Arcs) -> ArcLists<'_> {
    listed(arcs, |arc| (arc.reached > 0).then_some(arc.reached))
}
