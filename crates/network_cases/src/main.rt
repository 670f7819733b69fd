//! Solves networks that no book makes, and prints what comes of each.

#![tactic(auto)]

use std::io;

mod gaps;
mod made;
mod show;
mod small;
mod vast;

fn main(rt: HostRuntime) -> io::Result<()> {
    small::run(&rt)?;
    vast::run(&rt)
}
