//! What the solver finds, in words.

use crate::gaps::Made;
use network::gap::{Gap, Step};
use network::network::Network;
use solver::ring::Ring;
use solver::solve::solve;
use solver::times::Times;
use std::io;

/// Prints the earliest and the latest time of an event.
fn print_window(rt: &HostRuntime, times: &Times, event: usize) -> io::Result<()> {
    if let (Some(earliest), Some(latest)) = (times.earliest(event), times.latest(event)) {
        println!(rt; "  event {event}: {earliest} to {latest}")?;
    }
    Ok(())
}

/// Prints a step of a ring.
fn print_step(rt: &HostRuntime, ring: &Ring, n: usize) -> io::Result<()> {
    if let Some(Step { place, gap }) = ring.step(n) {
        let Gap {
            left,
            reached,
            days,
        } = gap;
        println!(rt; "  place {place}: from event {left} to event {reached}, {days} days")?;
    }
    Ok(())
}

/// The days of the steps, added up.
fn days_of(ring: &Ring) -> i64 {
    (1..=ring.steps())
        .filter_map(|n| ring.step(n))
        .fold(0, |sum, step| sum.saturating_add(step.gap.days))
}

/// Solves a network and prints the length and every window, or the ring.
pub fn print_all(rt: &HostRuntime, network: &Made) -> io::Result<()> {
    match solve(network) {
        Ok(times) => {
            let length = times.length();
            println!(rt; "  {length} days")?;
            for event in 0..=times.events() {
                print_window(rt, &times, event)?;
            }
        }
        Err(ring) => {
            for n in 1..=ring.steps() {
                print_step(rt, &ring, n)?;
            }
        }
    }
    Ok(())
}

/// Solves a network and prints the length with the first windows and the last, or the size of the ring.
pub fn print_ends(rt: &HostRuntime, network: &Made) -> io::Result<()> {
    match solve(network) {
        Ok(times) => {
            let length = times.length();
            println!(rt; "  {length} days")?;
            print_window(rt, &times, 0)?;
            print_window(rt, &times, 1)?;
            print_window(rt, &times, times.events())?;
        }
        Err(ring) => {
            let (steps, days) = (ring.steps(), days_of(&ring));
            println!(rt; "  a ring of {steps} steps, {days} days")?;
            print_step(rt, &ring, 1)?;
        }
    }
    Ok(())
}
