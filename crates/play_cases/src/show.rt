//! What an issued plan tells, in words.

use book::traits::Book;
use network::gap::{Gap, Owner, Step};
use network::network::Network;
use plan::issued::IssuedPlan;
use sheet::sheet::sheet;
use sheet::spanned::Spanned;
use std::io::Write;
use std::{fmt, io};

/// An owner, in words.
// A struct of this crate, since a crate may not implement Display for the types of another.
#[derive(Clone, Copy)]
struct OwnerWords(Owner);

impl fmt::Display for OwnerWords {
    fn fmt<W: fmt::Write>(&self, f: &mut fmt::Formatter<W>) -> fmt::Result {
        match self.0 {
            Owner::Line(number) => write!(f, "line {number}"),
            Owner::DatePlace(number) => write!(f, "date place {number}"),
            Owner::Floor(_) => write!(f, "the floor"),
        }
    }
}

/// Whether some gap leaves the event or reaches it.
fn is_tied<N: Network>(network: &N, event: usize) -> bool {
    let ties = |gap: Gap| gap.left == event || gap.reached == event;
    (1..=network.places()).any(|place| network.gap(place).is_some_and(ties))
}

/// Prints a step of a ring, with its owner.
fn print_step<N: Network>(rt: &HostRuntime, network: &N, step: Step) -> io::Result<()> {
    let owner = OwnerWords(network.owner(step.place));
    let gap = step.gap;
    let (left, reached, days) = (gap.left, gap.reached, gap.days);
    println!(rt; "  from event {left} to event {reached}: {days} days, by {owner}")
}

/// Prints the sheet.
fn print_sheet<B: Book>(rt: &HostRuntime, plan: &IssuedPlan<B>) -> io::Result<()>
where
    B::Entry: Spanned,
{
    let mut bytes = [0; 4096];
    match sheet(plan, &mut bytes) {
        Ok(written) => rt.stdout().write_all(bytes.get(..written).unwrap_or(&[])),
        Err(_) => Ok(()),
    }
}

/// Prints the length and the window of each event that a gap ties, or the ring; and then the sheet.
pub fn print_plan<B: Book>(rt: &HostRuntime, plan: &IssuedPlan<B>) -> io::Result<()>
where
    B::Entry: Spanned,
{
    let book = plan.book();
    if let Ok(length) = plan.length() {
        println!(rt; "  {length} days")?;
    }
    for event in 0..=book.events() {
        if is_tied(book, event) {
            if let (Ok(earliest), Ok(latest)) = (plan.earliest(event), plan.latest(event)) {
                println!(rt; "  event {event}: {earliest} to {latest}")?;
            }
        }
    }
    // one step past the last is asked for too, and refused
    for n in 1..=plan.ring_steps().saturating_add(1) {
        if let Ok(step) = plan.ring_step(n) {
            print_step(rt, book, step)?;
        }
    }
    print_sheet(rt, plan)
}
