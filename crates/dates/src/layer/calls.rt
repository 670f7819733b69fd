//! The calls and questions of a dated book: what concerns lines and lower date places goes down.

ghost use Rattle.std.specs.Prelude.{◌≡◌, ◌-◌, ◌<◌, ◌≤◌, None};
ghost use Rattle.std.specs.Result.{result_err};
ghost use Rattle.book.specs.declared.refusal.Layer.TheVariants.{Dates};
ghost use Rattle.book.specs.Calls.{on_date, on_clear, by, answered, with_date, refusal, hears, date as dating, clear as clearing};
ghost use Rattle.book.specs.Layers.{added};
ghost use Rattle.book.specs.Refusals.{told};
ghost use Rattle.table.specs.Standing.{standing};
ghost use Rattle.dates.specs.Layered.{over};
ghost use Rattle.dates.specs.LayeredLemmas.{layered_lawful};
ghost use Rattle.std.proofs.Common.{rules};

use crate::layer::{Dated, LAST_DAY, room_over};
use book::date::Date;
use book::range::is_within;
use book::refusal::{Layer, Refusal, Refused};
use book::traits::Book;
use network::network::Network;

impl<B: Book> Dated<B> {
    /// The refusal that meets a dating, if any.
    fn on_date(&self, q: usize, d: Date) -> Result<(), Refusal>
        ensures { result_err result ≡ on_date (over B.Book.meaning self.now) q d }
    {
        if !is_within(q, self.dates()) {
            return Err(Refusal::NoSuchDatePlace);
        }
        if !is_within(d.event, self.events()) {
            return Err(Refusal::NoSuchEvent);
        }
        if d.day > LAST_DAY {
            return Err(Refusal::OutOfRange);
        }
        Ok(())
    }

    /// The refusal that meets a clearing, if any.
    fn on_clear(&self, q: usize) -> Result<(), Refusal>
        ensures { result_err result ≡ on_clear (over B.Book.meaning self.now) q }
    {
        if !is_within(q, self.dates()) {
            return Err(Refusal::NoSuchDatePlace);
        }
        if self.date_at(q).is_none() {
            return Err(Refusal::DatePlaceEmpty);
        }
        Ok(())
    }

    /// A dating of a lower date place: it goes down, and the answer comes up whole.
    fn date_below(&mut self, q: usize, d: Date) -> Result<(), Refused>
        requires { q ≤ (B.Book.meaning self.old.below).rule.dates }
        ensures answer { told result ≡ refusal (over B.Book.meaning self.old) (dating q d) }
        ensures after { over B.Book.meaning self.new ≡ hears (over B.Book.meaning self.old) (dating q d) }
    {
        self.below.date(q, d)
    }

    /// A clearing of a lower date place: it goes down, and the answer comes up whole.
    fn clear_below(&mut self, q: usize) -> Result<(), Refused>
        requires { q ≤ (B.Book.meaning self.old.below).rule.dates }
        ensures answer { told result ≡ refusal (over B.Book.meaning self.old) (clearing q) }
        ensures after { over B.Book.meaning self.new ≡ hears (over B.Book.meaning self.old) (clearing q) }
    {
        self.below.clear(q)
    }

    /// Carries out what is not refused: `stands` goes onto one of the layer's own places.
    fn settle(
        &mut self,
        q: usize,
        verdict: Result<(), Refusal>,
        stands: Option<Date>,
    ) -> Result<(), Refused>
        requires above { (B.Book.meaning self.old.below).rule.dates < q }
        requires room { result_err verdict ≡ None → q - (B.Book.meaning self.old.below).rule.dates ≤ added (B.Book.meaning self.old.below).rule.places }
        ensures answer { told result ≡ by Dates q (result_err verdict) }
        ensures after { over B.Book.meaning self.new ≡ answered (by Dates q (result_err verdict)) (with_date (over B.Book.meaning self.old) q stands) (over B.Book.meaning self.old) }
    {
        verdict.map_err(|why| why.at(Layer::Dates, q))?;
        self.own.put(q - self.below.dates(), stands);
        Ok(())
    }
}

impl<B: Book> Book for Dated<B> {
    type Entry = B::Entry;

    ghost meaning = { λ s. over B.Book.meaning s };

    ghost made = { Prim.search rules };

    ghost keeps = { λ b. layered_lawful (B.Book.meaning b.below) (standing b.own) (B.Book.keeps b.below) };

    fn lines(&self) -> usize {
        self.below.lines()
    }

    fn dates(&self) -> usize {
        self.below.dates() + room_over(self.below.places())
    }

    fn line(&self, p: usize) -> Option<B::Entry> {
        self.below.line(p)
    }

    fn date_at(&self, q: usize) -> Option<Date> {
        let below = self.below.dates();
        if q <= below {
            return self.below.date_at(q);
        }
        if q - below > room_over(self.below.places()) {
            return None;
        }
        self.own.get(q - below)
    }

    fn alteration(&self, p: usize, e: B::Entry) -> Result<(), Refused> {
        self.below.alteration(p, e)
    }

    fn enter(&mut self, p: usize, e: B::Entry) -> Result<(), Refused> {
        self.below.enter(p, e)
    }

    fn alter(&mut self, p: usize, e: B::Entry) -> Result<(), Refused> {
        self.below.alter(p, e)
    }

    fn strike(&mut self, p: usize) -> Result<(), Refused> {
        self.below.strike(p)
    }

    fn date(&mut self, q: usize, d: Date) -> Result<(), Refused> {
        let below = self.below.dates();
        if q <= below {
            return self.date_below(q, d);
        }
        let verdict = self.on_date(q, d);
        self.settle(q, verdict, Some(d))
    }

    fn clear(&mut self, q: usize) -> Result<(), Refused> {
        let below = self.below.dates();
        if q <= below {
            return self.clear_below(q);
        }
        let verdict = self.on_clear(q);
        self.settle(q, verdict, None)
    }
}
