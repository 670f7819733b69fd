//! Networks of a few events: no gap, no event but the beginning, gaps into the beginning and from an event to itself.

use crate::gaps::Made;
use crate::show::print_all;
use std::io;

/// Solves a network and prints every window, or the ring.
fn case(
    rt: &HostRuntime,
    what: &str,
    events: usize,
    gaps: &[(usize, usize, i64)],
) -> io::Result<()> {
    println!(rt; "{what}")?;
    print_all(rt, &Made::of(events, gaps))
}

/// Few gaps or none, and gaps from an event to itself.
fn plain(rt: &HostRuntime) -> io::Result<()> {
    case(rt, "no event but 0, no gap", 0, &[])?;
    case(rt, "event 0, 0 days after itself", 0, &[(0, 0, 0)])?;
    case(rt, "event 0, a day after itself", 0, &[(0, 0, 1)])?;
    case(rt, "three events, no gap", 3, &[])?;
    case(rt, "event 1 at most 5 days before itself", 1, &[(1, 1, -5)])?;
    case(rt, "event 1 a day after itself", 1, &[(1, 1, 1)])
}

/// Gaps to and from event 0.
fn dated(rt: &HostRuntime) -> io::Result<()> {
    case(rt, "event 0 at least 5 days after event 1", 1, &[(1, 0, 5)])?;
    case(rt, "event 1 by day 5", 1, &[(1, 0, -5)])?;
    case(rt, "event 1 on day 5", 1, &[(0, 1, 5), (1, 0, -5)])?;
    case(
        rt,
        "event 1 from day 5 on, and by day 4",
        1,
        &[(0, 1, 5), (1, 0, -4)],
    )
}

/// Rings of 0 days, and gaps beside one another.
fn tied(rt: &HostRuntime) -> io::Result<()> {
    case(
        rt,
        "event 2 just 3 days after event 1",
        2,
        &[(1, 2, 3), (2, 1, -3)],
    )?;
    case(
        rt,
        "the same by day 3",
        2,
        &[(1, 2, 3), (2, 1, -3), (2, 0, -3)],
    )?;
    case(
        rt,
        "the same by day 2",
        2,
        &[(1, 2, 3), (2, 1, -3), (2, 0, -2)],
    )?;
    case(
        rt,
        "two gaps between the same events",
        2,
        &[(1, 2, 3), (1, 2, 7)],
    )?;
    case(
        rt,
        "a gap that the latest time waits for",
        3,
        &[(1, 3, 9), (2, 3, 1), (2, 1, -20)],
    )
}

/// Solves each.
pub fn run(rt: &HostRuntime) -> io::Result<()> {
    plain(rt)?;
    dated(rt)?;
    tied(rt)
}
