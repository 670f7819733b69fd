//! A walk through a sheet, form by form.

ghost use Rattle.std.specs.Prelude.{◌≡◌, ◌+◌, ◌-◌, ◌≤◌};
ghost use Rattle.sheet.specs.Sheets.{spans_of};
ghost use Rattle.sheet.specs.Walking.{rows_from, next_rows, RowInside};

use crate::row::Rows;
use crate::span::Span;
use crate::spanned::Spanned;
use book::traits::Book;
use sheet_forms::form::Row;

/// What comes next: the head; the rows from a line on, with so many made; the ring's steps after so many; or nothing.
#[derive(Clone, Copy)]
pub(crate) enum Walk {
    Head,
    Line(usize, usize),
    Step(usize),
    Done,
}

/// The span on a line.
fn span_at<B: Book>(book: &B, line: usize) -> Option<Span>
where
    B::Entry: Spanned,
    ensures { result ≡ spans_of B.Entry.Spanned.span_of (B.Book.meaning book.now) line }
{
    book.line(line)?.span(line)
}

impl<B: Book> Rows<'_, B>
where
    B::Entry: Spanned,
{
    /// The first row from a line on.
    pub(crate) fn next_row(&self, first: usize) -> Option<Row>
        requires { 1 ≤ first }
        ensures rows { rows_from self.now (spans_of B.Entry.Spanned.span_of (B.Book.meaning self.now.plan.now.book)) first ((B.Book.meaning self.now.plan.now.book).rule.lines + 1 - first) ≡ next_rows self.now (spans_of B.Entry.Spanned.span_of (B.Book.meaning self.now.plan.now.book)) (B.Book.meaning self.now.plan.now.book).rule.lines result }
        ensures inside { RowInside first (B.Book.meaning self.now.plan.now.book).rule.lines result }
    {
        let book = self.plan.book();
        // a find_map over the lines was tried: its proof did not close on what is said of its calls, line by line
        for line in first..=book.lines() {
            if let Some(span) = span_at(book, line) {
                return Some(self.row_of(line, span));
            }
        }
        None
    }
}
