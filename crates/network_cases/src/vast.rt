//! As many events and places as there can be: chains in order, reversed and shuffled, and a ring through every event.

ghost use Rattle.std.specs.Prelude.{◌<◌};

use crate::gaps::{Made, PLACES};
use crate::show::print_ends;
use network::gap::Gap;
use std::io;

/// The number of the last event.
const LAST: usize = 1_023;

/// Which link of the chain a place holds, counted from 0.
#[derive(Clone, Copy)]
enum Links {
    InOrder,
    Reversed,
    Shuffled,
}

/// Which link comes at an index.
fn link(links: Links, index: usize) -> usize
    ensures { result < 1023 }
{
    let k = index % LAST;
    match links {
        Links::InOrder => k,
        Links::Reversed => LAST - 1 - k,
        // 5 has no factor in common with 1,023, so every link comes once
        Links::Shuffled => k * 5 % LAST,
    }
}

/// The gap at an index, where the links come over and over: each event after the one before it, by 99,999 days and then
/// by a day less each time.
fn link_gap(links: Links, index: usize) -> Gap {
    let left = link(links, index);
    Gap {
        left,
        reached: left + 1,
        days: 99_999 - (index / LAST).min(9) as i64,
    }
}

/// A chain of so many links.
fn chain(links: Links, places: usize) -> Made {
    let mut made = Made::of(LAST, &[]);
    for index in 0..places {
        made.add(link_gap(links, index));
    }
    made
}

/// The chain, with the last event due by day 99,999.
fn closed(links: Links) -> Made {
    let mut made = chain(links, PLACES - 1);
    made.add(Gap {
        left: LAST,
        reached: 0,
        days: -99_999,
    });
    made
}

/// Solves each and prints its ends, or the size of its ring.
pub fn run(rt: &HostRuntime) -> io::Result<()> {
    println!(rt; "1,023 links of 99,999 days")?;
    print_ends(rt, &chain(Links::InOrder, PLACES))?;
    println!(rt; "the same reversed")?;
    print_ends(rt, &chain(Links::Reversed, PLACES))?;
    println!(rt; "the same shuffled")?;
    print_ends(rt, &chain(Links::Shuffled, PLACES))?;
    println!(rt; "the last event by day 99,999")?;
    print_ends(rt, &closed(Links::InOrder))?;
    println!(rt; "the same shuffled")?;
    print_ends(rt, &closed(Links::Shuffled))
}
