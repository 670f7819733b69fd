//! The parts of a network: events that arcs tie both ways, so that each leads to each.

use crate::arcs::Arcs;
use crate::order::lists::{ArcLists, Lists, link, onward, reaching};
use crate::order::visit::{Visit, by_number, left_in_turn, turned};

/// The events of each part.
pub(crate) type Parts = Lists<1024>;

/// For each event the number of its part, as `link` reads it: a part comes after those that lead to it. Of the events as a
/// visit along the arcs left them, the last is in the first part, with all that lead to it, and so on.
fn numbers(arcs: &Arcs, left: &[u16; 1024]) -> [u16; 1024] {
    let reaching = reaching(arcs);
    let mut visit = Visit::over(&reaching);
    let mut part: usize = 0;
    for first in left[..=arcs.events].iter().rev() {
        let first = usize::from(*first);
        if !visit.has_seen(first) {
            visit.go(first, part);
            part = part.saturating_add(1);
        }
    }
    visit.seen
}

/// The parts, and in each its events, as a visit leaves them that begins at each of `begins` in turn, the last first.
fn parts_in_turn(listed: &ArcLists, numbers: &[u16; 1024], begins: &[u16; 1024]) -> Parts {
    let left = left_in_turn(listed, begins);
    let mut parts = Lists::none();
    for event in &left[..=listed.arcs.events] {
        let event = usize::from(*event);
        if let Some(part) = link(numbers, event) {
            parts.add(part, event);
        }
    }
    parts
}

/// The parts, each with its events as the arcs of no negative days lead from one to the next. Where these leave a choice,
/// the second gives the events the other way round.
pub(crate) fn parts_both_ways(leaving: &ArcLists) -> (Parts, Parts) {
    let arcs = leaving.arcs;
    let along = left_in_turn(leaving, &by_number());
    let numbers = numbers(arcs, &along);
    let onward = onward(arcs);
    let there = parts_in_turn(&onward, &numbers, &along);
    let back = parts_in_turn(&onward, &numbers, &turned(arcs, &along));
    (there, back)
}
