//! All that is left of a text, said to a book.

ghost use Rattle.std.specs.Prelude.{◌≡◌, ◌^◌, ◌<◌, length};
ghost use Rattle.forms.specs.Texts.{left};
ghost use Rattle.gezwaphimo.specs.Hearing.{HeardAll, no_form_refusal, unsaid_refusal};

use crate::said::{Unsaid, say_to};
use crate::words::Worded;
use book::refusal::{Layer, Refusal, Refused};
use book::traits::Book;
use forms::reader::Reader;
use sheet::spanned::Spanned;

/// A line that is no form of this kind of plan.
pub(crate) fn no_form(line: usize) -> Refused
    ensures { result ≡ no_form_refusal line }
{
    Refusal::NoForm.at(Layer::Text, line)
}

/// A form that is not carried out, told at its text line.
fn unsaid_at(line: usize, unsaid: Unsaid) -> Refused
    ensures { result ≡ unsaid_refusal line unsaid }
{
    match unsaid {
        Unsaid::NoCall => no_form(line),
        Unsaid::Refused(refused) => refused.why.at(refused.layer, line),
    }
}

/// Says the forms of a text to a book, from the second line on, until the first refusal or the end.
#[inline(never)]
pub(crate) fn heard_all<B: Book>(book: &mut B, reader: &mut Reader) -> Result<(), Refused>
where
    B::Entry: Worded + Spanned,
    requires { length (left reader.old) < 2 ^ 63 }
    ensures { HeardAll B.Entry.Spanned.span_of B.Entry.Worded.entry_of B.Entry.Worded.event_of (B.Book.meaning book.old) (B.Book.meaning book.new) (left reader.old) result }
{
    // The reader is no iterator, so that a range of lines zipped with its forms would first need one: no plainer.
    let mut line = 2;
    while let Some(form) = reader.next().map_err(|_| no_form(line))? {
        say_to(book, form).map_err(|unsaid| unsaid_at(line, unsaid))?;
        line += 1;
    }
    Ok(())
}
