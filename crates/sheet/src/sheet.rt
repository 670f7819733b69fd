//! The sheet, written into the caller's bytes.

ghost use Rattle.std.specs.Prelude.{◌≡◌, ◌≤◌, ◌++◌, length, drop, nat_le};
ghost use Rattle.sheet.specs.Sheets.{Delivered};
ghost use Rattle.sheet.specs.Strides.{sheet_bytes};

use crate::room::rooms_of;
use crate::row::Rows;
use crate::spanned::Spanned;
use book::refusal::{Layer, Refusal, Refused};
use book::traits::Book;
use plan::issued::IssuedPlan;

impl<B: Book> Rows<'_, B>
where
    B::Entry: Spanned,
{
    /// Whether the sheet has at most so many bytes.
    fn fits(&self, bytes: usize) -> bool
        ensures { result ≡ nat_le (length (sheet_bytes B.Entry.Spanned.span_of B.Book.meaning self.now)) bytes }
    {
        // a loop and not a try_fold, which is no plainer: its clauses speak of calls, and the loop's one invariant of the room
        let mut free = bytes;
        for form in self.forms() {
            let size = form.size();
            if size > free {
                return false;
            }
            free -= size;
        }
        true
    }

    /// Writes the sheet where it fits, and says how many bytes it has.
    fn written(&self, out: &mut [u8]) -> usize
        requires { length (sheet_bytes B.Entry.Spanned.span_of B.Book.meaning self.now) ≤ length out.old }
        ensures count { result ≡ length (sheet_bytes B.Entry.Spanned.span_of B.Book.meaning self.now) }
        ensures bytes { out.new ≡ sheet_bytes B.Entry.Spanned.span_of B.Book.meaning self.now ++ drop result out.old }
    {
        // the place steps on by hand, since each form is as long as it is
        let mut at = 0;
        for form in self.forms() {
            let text = form.text();
            let bytes = text.bytes();
            let end = at + bytes.len();
            out[at..end].copy_from_slice(bytes);
            at = end;
        }
        at
    }
}

/// Writes the sheet of an issued plan into the caller's bytes, and says how many it wrote. It is refused exactly where
/// they are too few, and then they hold what they held; bytes past the sheet always do.
#[inline(never)]
pub fn sheet<B: Book>(plan: &IssuedPlan<B>, out: &mut [u8]) -> Result<usize, Refused>
where
    B::Entry: Spanned,
    ensures { Delivered B.Entry.Spanned.span_of (B.Book.meaning plan.now.book) plan.now.outcome out.old out.new result }
{
    let rooms = rooms_of(plan);
    let rows = Rows { plan, rooms };
    if rows.fits(out.len()) {
        Ok(rows.written(out))
    } else {
        Err(Refusal::BufferTooShort.at(Layer::Plan, 0))
    }
}
