//! A plan that can be entered, dated and issued.

ghost use Rattle.std.specs.Prelude.{◌≡◌};
ghost use Rattle.book.specs.Calls.{refusal, hears, enter as entering, alter as altering, strike as striking, date as dating, clear as clearing, look as looking};
ghost use Rattle.book.specs.Past.{InStep};
ghost use Rattle.book.specs.Refusals.{told};
ghost use Rattle.book.specs.Rules.{network_of};
ghost use Rattle.plan.specs.Issues.{Right, RightAfter};

use crate::issued::IssuedPlan;
use book::date::Date;
use book::refusal::Refused;
use book::traits::Book;
use solver::solve::solve;

// The calls' clauses name the book's meaning before and after as those of `Book` do, so that each can be read beside the
// trait's: a word for the three of them would hide the equations that a caller looks for. A line and its entry are the two
// things that such a call names, and so are a date place and its date: no value holds both anywhere.

/// A plan over a book.
#[derive(Drop)]
pub struct OpenPlan<B: Book> {
    pub(crate) book: B,
}

impl<B: Book> OpenPlan<B> {
    /// A plan over a book as it stands.
    pub fn over(book: B) -> OpenPlan<B>
        ensures { result.book ≡ book }
    {
        OpenPlan { book }
    }

    /// The book, for its questions.
    pub fn book(&self) -> &B
        ensures { result.now ≡ self.now.book }
    {
        &self.book
    }

    /// Puts an entry on an empty line.
    pub fn enter(&mut self, p: usize, e: B::Entry) -> Result<(), Refused>
        ensures answer { told result ≡ refusal (B.Book.meaning self.old.book) (entering p e) }
        ensures after { B.Book.meaning self.new.book ≡ hears (B.Book.meaning self.old.book) (entering p e) }
        ensures past { InStep (B.Book.meaning self.old.book) (B.Book.meaning self.new.book) (entering p e) }
    {
        self.book.enter(p, e)
    }

    /// Puts another entry on a standing line.
    pub fn alter(&mut self, p: usize, e: B::Entry) -> Result<(), Refused>
        ensures answer { told result ≡ refusal (B.Book.meaning self.old.book) (altering p e) }
        ensures after { B.Book.meaning self.new.book ≡ hears (B.Book.meaning self.old.book) (altering p e) }
        ensures past { InStep (B.Book.meaning self.old.book) (B.Book.meaning self.new.book) (altering p e) }
    {
        self.book.alter(p, e)
    }

    /// Empties a standing line.
    pub fn strike(&mut self, p: usize) -> Result<(), Refused>
        ensures answer { told result ≡ refusal (B.Book.meaning self.old.book) (striking p) }
        ensures after { B.Book.meaning self.new.book ≡ hears (B.Book.meaning self.old.book) (striking p) }
        ensures past { InStep (B.Book.meaning self.old.book) (B.Book.meaning self.new.book) (striking p) }
    {
        self.book.strike(p)
    }

    /// Fills a date place, or refills it.
    pub fn date(&mut self, q: usize, d: Date) -> Result<(), Refused>
        ensures answer { told result ≡ refusal (B.Book.meaning self.old.book) (dating q d) }
        ensures after { B.Book.meaning self.new.book ≡ hears (B.Book.meaning self.old.book) (dating q d) }
        ensures past { InStep (B.Book.meaning self.old.book) (B.Book.meaning self.new.book) (dating q d) }
    {
        self.book.date(q, d)
    }

    /// Empties a filled date place.
    pub fn clear(&mut self, q: usize) -> Result<(), Refused>
        ensures answer { told result ≡ refusal (B.Book.meaning self.old.book) (clearing q) }
        ensures after { B.Book.meaning self.new.book ≡ hears (B.Book.meaning self.old.book) (clearing q) }
        ensures past { InStep (B.Book.meaning self.old.book) (B.Book.meaning self.new.book) (clearing q) }
    {
        self.book.clear(q)
    }

    /// Computes the plan's times, or finds that it is contradictory. It is never refused.
    pub fn issue(self) -> IssuedPlan<B>
        ensures book { result.book ≡ self.book }
        ensures right { Right (network_of (B.Book.meaning self.book)) result.outcome }
        ensures past { RightAfter (B.Book.meaning self.book) result.outcome }
        ensures step { InStep (B.Book.meaning self.book) (B.Book.meaning result.book) looking }
    {
        let OpenPlan { book } = self;
        let outcome = solve(&book);
        IssuedPlan { book, outcome }
    }
}
