//! Sheets at their edges, into buffers of every length.

#![tactic(auto)]

use std::io;

mod buffers;
mod entries;
mod plans;
mod rings;

fn main(rt: HostRuntime) -> io::Result<()> {
    plans::run(&rt)?;
    rings::run(&rt)
}
