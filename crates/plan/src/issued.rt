//! A plan whose times are computed, to be read.

ghost use Rattle.std.specs.Prelude.{◌≡◌, is_ok};
ghost use Rattle.std.specs.Fn.{FnOnceReturnsAt};
ghost use Rattle.solver.specs.Solutions.{earliest_of, latest_of};
ghost use Rattle.book.specs.Calls.{look as looking};
ghost use Rattle.book.specs.Past.{InStep};
ghost use Rattle.book.specs.Refusals.{told};
ghost use Rattle.book.specs.Rules.{network_of};
ghost use Rattle.plan.specs.Readings.{refused_at, time_read, TimeBy, of_sound, step_count, step_read, time_told, sound_told, step_told, StaysInStep};

use crate::open::OpenPlan;
use book::refusal::{Layer, Refusal, Refused};
use book::traits::Book;
use network::gap::Step;
use solver::ring::Ring;
use solver::times::Times;

/// A plan over a book, with its times, or the ring for which it has none.
#[derive(Drop)]
pub struct IssuedPlan<B: Book> {
    pub(crate) book: B,
    pub(crate) outcome: Result<Times, Ring>,
}

/// A reading that the plan refuses.
fn refused(why: Refusal, place: usize) -> Refused
    ensures { result ≡ refused_at why place }
{
    why.at(Layer::Plan, place)
}

impl<B: Book> IssuedPlan<B> {
    /// The book, for its questions.
    pub fn book(&self) -> &B
        ensures { result.now ≡ self.now.book }
    {
        &self.book
    }

    /// Whether the plan has a schedule.
    pub fn is_sound(&self) -> bool
        ensures answer { result ≡ is_ok self.now.outcome }
        ensures past { StaysInStep (B.Book.meaning self.now.book) }
    {
        self.outcome.is_ok()
    }

    /// A time of an event, as it is read off the times: refused first where there is no such event, then where the plan has
    /// no times.
    fn time<F: FnOnce(&Times) -> Option<u32>>(&self, event: usize, read: F) -> Result<u32, Refused>
        requires { F.IsAlwaysCallable read }
        ensures { TimeBy self.now.outcome (network_of (B.Book.meaning self.now.book)).events (FnOnceReturnsAt F.FnOnce read) event result }
    {
        match &self.outcome {
            Ok(times) => read(times).ok_or(refused(Refusal::NoSuchEvent, event)),
            Err(_) if event > self.book.events() => Err(refused(Refusal::NoSuchEvent, event)),
            Err(_) => Err(refused(Refusal::Contradictory, event)),
        }
    }

    /// The earliest time of an event.
    pub fn earliest(&self, event: usize) -> Result<u32, Refused>
        ensures answer { result ≡ time_read self.now.outcome (network_of (B.Book.meaning self.now.book)).events earliest_of event }
        ensures refused { told result ≡ time_told self.now.outcome (network_of (B.Book.meaning self.now.book)).events event }
        ensures past { StaysInStep (B.Book.meaning self.now.book) }
    {
        self.time(event, |times| times.earliest(event))
    }

    /// The latest time of an event.
    pub fn latest(&self, event: usize) -> Result<u32, Refused>
        ensures answer { result ≡ time_read self.now.outcome (network_of (B.Book.meaning self.now.book)).events latest_of event }
        ensures refused { told result ≡ time_told self.now.outcome (network_of (B.Book.meaning self.now.book)).events event }
        ensures past { StaysInStep (B.Book.meaning self.now.book) }
    {
        self.time(event, |times| times.latest(event))
    }

    /// The length.
    pub fn length(&self) -> Result<u32, Refused>
        ensures answer { result ≡ of_sound self.now.outcome (λ ts. ts.length) 0 }
        ensures refused { told result ≡ sound_told self.now.outcome 0 }
        ensures past { StaysInStep (B.Book.meaning self.now.book) }
    {
        let length = self.outcome.as_ref().map(|times| times.length());
        length.map_err(|_| refused(Refusal::Contradictory, 0))
    }

    /// How many steps the ring has; none where the plan is sound.
    pub fn ring_steps(&self) -> usize
        ensures answer { result ≡ step_count self.now.outcome }
        ensures past { StaysInStep (B.Book.meaning self.now.book) }
    {
        self.outcome.as_ref().err().map_or(0, |ring| ring.steps())
    }

    /// A step of the ring, numbered from 1.
    pub fn ring_step(&self, n: usize) -> Result<Step, Refused>
        ensures answer { result ≡ step_read self.now.outcome n }
        ensures refused { told result ≡ step_told self.now.outcome n }
        ensures past { StaysInStep (B.Book.meaning self.now.book) }
    {
        let step = self.outcome.as_ref().err().and_then(|ring| ring.step(n));
        step.ok_or(refused(Refusal::NoSuchStep, n))
    }

    /// Gives back the open plan, with the same lines and dates.
    pub fn reopen(self) -> OpenPlan<B>
        ensures book { result.book ≡ self.book }
        ensures past { InStep (B.Book.meaning self.book) (B.Book.meaning result.book) looking }
    {
        let IssuedPlan { book, outcome: _ } = self;
        OpenPlan { book }
    }
}
