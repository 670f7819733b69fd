//! From the second line of a text to its answer.

ghost use Rattle.std.specs.Prelude.{◌^◌, ◌<◌, length};
ghost use Rattle.forms.specs.Texts.{left};
ghost use Rattle.gezwaphimo.specs.Texts.{RestAnswered};

use crate::hear::heard_all;
use crate::line::poured;
use crate::words::Worded;
use book::refusal::Refused;
use book::traits::Book;
use forms::reader::Reader;
use plan::open::OpenPlan;
use sheet::sheet::sheet;
use sheet::spanned::Spanned;
use sheet_forms::form::SheetForm;

/// Says the rest of a text to a book, and writes the sheet of what they make, or the line of the first refusal.
#[inline(never)]
pub(crate) fn finish<B: Book + Drop>(
    start: B,
    rest: Reader,
    out: &mut [u8],
) -> Result<usize, Refused>
where
    B::Entry: Worded + Spanned,
    requires { length (left rest) < 2 ^ 63 }
    ensures { RestAnswered B.Entry.Spanned.span_of B.Entry.Worded.entry_of B.Entry.Worded.event_of (B.Book.meaning start) (left rest.entry) out.old out.new result }
{
    let mut book = start;
    let mut reader = rest;
    match heard_all(&mut book, &mut reader) {
        Err(refusal) => poured(SheetForm::Refused(refusal), out),
        Ok(()) => {
            let plan = OpenPlan::over(book).issue();
            sheet(&plan, out)
        }
    }
}
