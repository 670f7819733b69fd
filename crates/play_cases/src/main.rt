//! Plays lists of calls, and prints what the issued plans tell: the length and the windows, or the ring.

#![tactic(auto)]

use std::io;

mod activities;
mod arrows;
mod calls;
mod contradictions;
mod show;

fn main(rt: HostRuntime) -> io::Result<()> {
    activities::run(&rt)?;
    arrows::run(&rt)?;
    contradictions::run(&rt)?;
    calls::run(&rt)
}
