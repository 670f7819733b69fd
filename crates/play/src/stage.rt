//! A plan on its way: a call that it lacks in its state first leads to the other.

ghost use Rattle.std.specs.Prelude.{◌≡◌};
ghost use Rattle.book.specs.Calls.{hears};
ghost use Rattle.book.specs.Rules.{network_of};
ghost use Rattle.plan.specs.Issues.{Right};
ghost use Rattle.play.specs.Asked.{Asked, SheetInto};
ghost use Rattle.play.specs.Played.{heard_as};
ghost use Rattle.play.specs.Stages.{book_in, Upright};

use crate::call::PlanCall;
use book::traits::Book;
use plan::issued::IssuedPlan;
use plan::open::OpenPlan;
use sheet::sheet::sheet;
use sheet::spanned::Spanned;

// That an issued plan is right stands in the clauses of the functions here, and not in a ghost field of `IssuedPlan`: such a field
// needs a fact with at most one proof, and `Right` tells which event a ring leaves and which times show that a day is possible.

// A call is told apart by a `match`, and is no closure: the caller's list holds it as data, and the clauses speak of it.

/// A plan, open or issued.
#[derive(Drop)]
pub(crate) enum Stage<B: Book> {
    Open(OpenPlan<B>),
    Issued(IssuedPlan<B>),
}

impl<B: Book> Stage<B> {
    /// The open plan; an issued one is reopened.
    fn opened(self) -> OpenPlan<B>
        ensures { result.book ≡ book_in self }
    {
        match self {
            Stage::Open(plan) => plan,
            Stage::Issued(plan) => plan.reopen(),
        }
    }

    /// The issued plan; an open one is issued.
    pub(crate) fn issued(self) -> IssuedPlan<B>
        requires { Upright B.Book.meaning self }
        ensures book { result.book ≡ book_in self }
        ensures right { Right (network_of (B.Book.meaning result.book)) result.outcome }
    {
        match self {
            Stage::Open(plan) => plan.issue(),
            Stage::Issued(plan) => plan,
        }
    }

    /// A call of an open plan, carried out or refused.
    fn changed(self, call: PlanCall<B::Entry>) -> Stage<B>
        ensures after { B.Book.meaning (book_in result) ≡ hears (B.Book.meaning (book_in self)) (heard_as call) }
        ensures upright { Upright B.Book.meaning result }
    {
        let mut plan = self.opened();
        match call {
            PlanCall::Enter(p, e) => {
                let _ = plan.enter(p, e);
            }
            PlanCall::Alter(p, e) => {
                let _ = plan.alter(p, e);
            }
            PlanCall::Strike(p) => {
                let _ = plan.strike(p);
            }
            PlanCall::Date(q, d) => {
                let _ = plan.date(q, d);
            }
            PlanCall::Clear(q) => {
                let _ = plan.clear(q);
            }
            _ => {}
        }
        Stage::Open(plan)
    }

    /// A reading, carried out or refused; the plan is issued first where it is open.
    fn read(self, call: PlanCall<B::Entry>) -> Stage<B>
        requires { Upright B.Book.meaning self }
        ensures same { book_in result ≡ book_in self }
        ensures upright { Upright B.Book.meaning result }
    {
        let plan = self.issued();
        match call {
            PlanCall::Earliest(event) => {
                let _ = plan.earliest(event);
            }
            PlanCall::Latest(event) => {
                let _ = plan.latest(event);
            }
            PlanCall::Length => {
                let _ = plan.length();
            }
            PlanCall::RingStep(n) => {
                let _ = plan.ring_step(n);
            }
            _ => {
                let _ = plan.is_sound();
            }
        }
        Stage::Issued(plan)
    }

    /// The sheet, written into the bytes or refused; the plan is issued first where it is open.
    fn sheeted(self, bytes: &mut [u8]) -> Stage<B>
    where
        B::Entry: Spanned,
        requires { Upright B.Book.meaning self }
        ensures same { book_in result ≡ book_in self }
        ensures upright { Upright B.Book.meaning result }
        ensures asked { SheetInto B.Entry.Spanned.span_of (B.Book.meaning (book_in self)) bytes.old bytes.new }
    {
        let plan = self.issued();
        let _ = sheet(&plan, bytes);
        Stage::Issued(plan)
    }

    /// One call more.
    pub(crate) fn heard(self, call: PlanCall<B::Entry>, bytes: &mut [u8]) -> Stage<B>
    where
        B::Entry: Spanned,
        requires { Upright B.Book.meaning self }
        ensures after { B.Book.meaning (book_in result) ≡ hears (B.Book.meaning (book_in self)) (heard_as call) }
        ensures upright { Upright B.Book.meaning result }
        ensures asked { Asked B.Entry.Spanned.span_of (B.Book.meaning (book_in self)) call bytes.old bytes.new }
    {
        match call {
            PlanCall::Issue => Stage::Issued(self.issued()),
            PlanCall::Reopen => Stage::Open(self.opened()),
            PlanCall::IsSound
            | PlanCall::Earliest(_)
            | PlanCall::Latest(_)
            | PlanCall::Length
            | PlanCall::RingStep(_) => self.read(call),
            PlanCall::Sheet => self.sheeted(bytes),
            _ => self.changed(call),
        }
    }
}
