//! A list of calls on a book, carried out in order with each answer printed.

ghost use Rattle.std.specs.Prelude.{◌≡◌};
ghost use Rattle.book.specs.Calls.{refusal, hears};
ghost use Rattle.book.specs.Refusals.{told};
ghost use Rattle.planner.specs.Heard.{heard_as};

use crate::show::Words;
use book::date::Date;
use book::refusal::Refused;
use book::traits::Book;
use network::network::Network;
use std::{fmt, io};

/// One call on a book.
// Not play's PlanCall: that has calls of a plan, which a book alone does not hear.
#[derive(Clone, Copy)]
pub enum Call<E> {
    Enter(usize, E),
    Alter(usize, E),
    Strike(usize),
    Date(usize, Date),
    Clear(usize),
}

/// Makes one call on a book.
fn carried_out<B: Book>(book: &mut B, call: Call<B::Entry>) -> Result<(), Refused>
    ensures answer { told result ≡ refusal (B.Book.meaning book.old) (heard_as call) }
    ensures after { B.Book.meaning book.new ≡ hears (B.Book.meaning book.old) (heard_as call) }
{
    match call {
        Call::Enter(p, e) => book.enter(p, e),
        Call::Alter(p, e) => book.alter(p, e),
        Call::Strike(p) => book.strike(p),
        Call::Date(q, d) => book.date(q, d),
        Call::Clear(q) => book.clear(q),
    }
}

impl<E: Copy> fmt::Display for Call<E>
where
    Words<E>: fmt::Display,
{
    fn fmt<W: fmt::Write>(&self, f: &mut fmt::Formatter<W>) -> fmt::Result {
        match *self {
            Call::Enter(p, e) => write!(f, "enter {p} {}", Words(e)),
            Call::Alter(p, e) => write!(f, "alter {p} {}", Words(e)),
            Call::Strike(p) => write!(f, "strike {p}"),
            Call::Date(q, d) => write!(f, "date {q} {}", Words(d)),
            Call::Clear(q) => write!(f, "clear {q}"),
        }
    }
}

/// Makes each call on the book, and prints it with its answer.
pub fn play<B: Book>(rt: &HostRuntime, book: &mut B, calls: &[Call<B::Entry>]) -> io::Result<()>
where
    Words<B::Entry>: fmt::Display,
{
    for call in calls {
        let answer = Words(carried_out(book, *call));
        println!(rt; "{call}: {answer}")?;
    }
    Ok(())
}

/// Prints every place that holds a gap, with the gap and the place's owner.
pub fn print_places<N: Network>(rt: &HostRuntime, network: &N) -> io::Result<()> {
    for place in 1..=network.places() {
        if let Some(gap) = network.gap(place) {
            let gap = Words(gap);
            let owner = Words(network.owner(place));
            println!(rt; "place {place}, {owner}: {gap}")?;
        }
    }
    Ok(())
}
