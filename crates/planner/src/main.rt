//! Makes an activity book and an arrow book, lays dates over them, and prints each call with its answer
//! and then every place that holds a gap.

#![tactic(auto)]

use std::io;

mod activities;
mod arrows;
mod call;
mod show;

fn main(rt: HostRuntime) -> io::Result<()> {
    activities::run(&rt)?;
    arrows::run(&rt)
}
