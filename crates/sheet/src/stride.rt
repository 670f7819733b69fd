//! The forms of a sheet, one after another.

ghost use Rattle.std.specs.Prelude.{◌≡◌};
ghost use Rattle.std.specs.Iterator.{YieldsFirst, item_count};
ghost use Rattle.sheet.specs.declared.walk.Walk.TheVariants as at;
ghost use Rattle.sheet.specs.Strides.{StepReady, ReadyAt, StrodeFrom, left_of, head_of, after_head};

use crate::row::Rows;
use crate::spanned::Spanned;
use crate::walk::Walk;
use book::traits::Book;
use sheet_forms::form::{OwnedStep, SheetForm};

/// The forms of a sheet that are left, in their order.
#[derive(Drop)]
pub(crate) struct Forms<'a, B: Book> {
    pub rows: &'a Rows<'a, B>,
    pub at: Walk,
}

impl<B: Book> Rows<'_, B>
where
    B::Entry: Spanned,
{
    /// The forms of the sheet.
    pub(crate) fn forms(&self) -> Forms<'_, B>
        ensures rows { result.rows.now ≡ self.now }
        ensures all { result.at ≡ at.Head }
    {
        Forms {
            rows: self,
            at: Walk::Head,
        }
    }

    /// The head of a sheet, and where the walk goes on after it.
    fn head(&self) -> (SheetForm, Walk)
        ensures form { result.0 ≡ head_of self.now.plan.now.outcome }
        ensures rest { result.1 ≡ after_head self.now.plan.now.outcome }
    {
        match self.plan.length() {
            Ok(length) => (SheetForm::Length(length), Walk::Line(1, 0)),
            Err(_) => (
                SheetForm::Contradiction(self.plan.ring_steps()),
                Walk::Step(0),
            ),
        }
    }

    /// The step of a ring after so many, with its owner; the end where there is none.
    fn after_steps(&self, steps: usize) -> (SheetForm, Walk)
        requires { StepReady self.now.plan.now.outcome steps }
        ensures { StrodeFrom B.Entry.Spanned.span_of B.Book.meaning self.now (at.Step steps) result.0 result.1 }
    {
        match self.plan.ring_step(steps + 1) {
            Ok(step) => {
                let owner = self.plan.book().owner(step.place);
                let gap = step.gap;
                (
                    SheetForm::Step(OwnedStep { owner, gap }),
                    Walk::Step(steps + 1),
                )
            }
            Err(_) => (SheetForm::End(steps), Walk::Done),
        }
    }

    /// The next row from a line on; the end where there is none.
    fn after_rows(&self, line: usize, made: usize) -> (SheetForm, Walk)
        requires { ReadyAt B.Entry.Spanned.span_of B.Book.meaning self.now (at.Line line made) }
        ensures { StrodeFrom B.Entry.Spanned.span_of B.Book.meaning self.now (at.Line line made) result.0 result.1 }
    {
        match self.next_row(line) {
            Some(row) => (SheetForm::Line(row), Walk::Line(row.line + 1, made + 1)),
            None => (SheetForm::End(made), Walk::Done),
        }
    }
}

impl<B: Book> Iterator for Forms<'_, B>
where
    B::Entry: Spanned,
{
    type Item = SheetForm;

    ghost can_next = { λ s. ReadyAt B.Entry.Spanned.span_of B.Book.meaning s.rows.now s.at };

    ghost next_gives = { YieldsFirst (λ s. left_of B.Entry.Spanned.span_of B.Book.meaning s.rows.now s.at) };

    ghost remaining = { item_count (λ s. left_of B.Entry.Spanned.span_of B.Book.meaning s.rows.now s.at) };

    fn next(&mut self) -> Option<SheetForm> {
        // the place in the walk is data that says what comes next
        let (form, rest) = match self.at {
            Walk::Head => self.rows.head(),
            Walk::Line(line, made) => self.rows.after_rows(line, made),
            Walk::Step(steps) => self.rows.after_steps(steps),
            Walk::Done => return None,
        };
        self.at = rest;
        Some(form)
    }
}
