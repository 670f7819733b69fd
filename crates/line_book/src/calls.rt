//! The calls and questions of a book of 400 lines.

ghost use Rattle.std.specs.Prelude.{◌≡◌, []};
ghost use Rattle.book.specs.Past.{heard};
ghost use Rattle.line_book.specs.LineBooks.{book_of};
ghost use Rattle.line_book.specs.Lawful.{lines_lawful};
ghost use Rattle.std.proofs.Common.{rules};

use crate::LineBook;
use crate::lines::Lines;
use book::date::Date;
use book::refusal::{Layer, Refusal, Refused};
use book::traits::Book;
use table::LINES;

impl<L: Lines> LineBook<L> {
    /// A book in which nothing stands, as if no call had been heard.
    pub fn new() -> LineBook<L>
        ensures { book_of L.Lines.rule (L.Lines.standing result.lines) ≡ heard L.Lines.rule [] }
    {
        LineBook { lines: L::blank() }
    }
}

impl<L: Lines> Book for LineBook<L> {
    type Entry = L::Entry;

    ghost meaning = { λ b. book_of L.Lines.rule (L.Lines.standing b.lines) };

    ghost made = { Prim.search rules };

    ghost keeps = { λ b.
        let laws = L.Lines in
        lines_lawful L.Lines.rule (L.Lines.standing b.lines) laws.lawful laws.only (laws.table b.lines) };

    fn lines(&self) -> usize {
        LINES
    }

    fn dates(&self) -> usize {
        0
    }

    fn line(&self, p: usize) -> Option<L::Entry> {
        self.lines.get(p)
    }

    fn date_at(&self, _q: usize) -> Option<Date> {
        None
    }

    fn alteration(&self, p: usize, e: L::Entry) -> Result<(), Refused> {
        self.on_alter(p, e).map_err(|why| why.at(Layer::Book, p))
    }

    fn enter(&mut self, p: usize, e: L::Entry) -> Result<(), Refused> {
        self.on_enter(p, e).map_err(|why| why.at(Layer::Book, p))?;
        self.lines.put(p, Some(e));
        Ok(())
    }

    fn alter(&mut self, p: usize, e: L::Entry) -> Result<(), Refused> {
        self.alteration(p, e)?;
        self.lines.put(p, Some(e));
        Ok(())
    }

    fn strike(&mut self, p: usize) -> Result<(), Refused> {
        self.on_strike(p).map_err(|why| why.at(Layer::Book, p))?;
        self.lines.put(p, None);
        Ok(())
    }

    fn date(&mut self, q: usize, _d: Date) -> Result<(), Refused> {
        Err(Refusal::NoSuchDatePlace.at(Layer::Dates, q))
    }

    fn clear(&mut self, q: usize) -> Result<(), Refused> {
        Err(Refusal::NoSuchDatePlace.at(Layer::Dates, q))
    }
}
