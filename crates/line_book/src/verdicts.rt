//! The tests that a call on a line goes through, in their order.

ghost use Rattle.std.specs.Prelude.{◌≡◌};
ghost use Rattle.std.specs.Result.{result_err};
ghost use Rattle.book.specs.Calls.{on_enter, on_alter, on_strike};
ghost use Rattle.line_book.specs.LineBooks.{book_of};

use crate::LineBook;
use crate::lines::Lines;
use book::range::is_within;
use book::refusal::Refusal;
use table::LINES;

impl<L: Lines> LineBook<L> {
    /// The refusal that meets an entering, if any.
    pub(crate) fn on_enter(&self, p: usize, e: L::Entry) -> Result<(), Refusal>
        ensures { result_err result ≡ on_enter (book_of L.Lines.rule (L.Lines.standing self.now.lines)) p e }
    {
        if !is_within(p, LINES) {
            return Err(Refusal::NoSuchLine);
        }
        if self.lines.get(p).is_some() {
            return Err(Refusal::LineStands);
        }
        self.lines.judged(p, e)
    }

    /// The refusal that meets an altering, if any: the entry is judged as if the line were empty.
    pub(crate) fn on_alter(&self, p: usize, e: L::Entry) -> Result<(), Refusal>
        ensures { result_err result ≡ on_alter (book_of L.Lines.rule (L.Lines.standing self.now.lines)) p e }
    {
        if !is_within(p, LINES) {
            return Err(Refusal::NoSuchLine);
        }
        if self.lines.get(p).is_none() {
            return Err(Refusal::LineEmpty);
        }
        self.lines.judged(p, e)?;
        if !self.lines.alters(p, e) {
            return Err(Refusal::StillNamed);
        }
        Ok(())
    }

    /// The refusal that meets a striking, if any.
    pub(crate) fn on_strike(&self, p: usize) -> Result<(), Refusal>
        ensures { result_err result ≡ on_strike (book_of L.Lines.rule (L.Lines.standing self.now.lines)) p }
    {
        if !is_within(p, LINES) {
            return Err(Refusal::NoSuchLine);
        }
        if self.lines.get(p).is_none() {
            return Err(Refusal::LineEmpty);
        }
        if !self.lines.strikes(p) {
            return Err(Refusal::StillNamed);
        }
        Ok(())
    }
}
