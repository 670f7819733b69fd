//! From the bytes of a text to the bytes of its answer.

ghost use Rattle.std.specs.Prelude.{◌≡◌, ◌≤◌, length};
ghost use Rattle.gezwaphimo.specs.Kinds.{kind_of};
ghost use Rattle.gezwaphimo.specs.Texts.{TextAnswered, Answered};

use crate::finish::finish;
use crate::hear::no_form;
use crate::line::poured;
use activity::ActivityBook;
use arrow::ArrowBook;
use book::refusal::{Layer, Refusal, Refused};
use dates::layer::Dated;
use forms::form::{Form, PlanKind};
use forms::reader::{NoForm, Reader};
use sheet_forms::form::SheetForm;

/// As many bytes as a text can have.
const TEXT_BYTES: usize = 65_536;

/// The kind of plan that is begun by what the reader has found.
fn kind_of(next: Result<Option<Form>, NoForm>) -> Option<PlanKind>
    ensures { result ≡ kind_of next }
{
    match next {
        Ok(Some(Form::Plan(kind))) => Some(kind),
        _ => None,
    }
}

/// The answer to a text that is not too long.
fn answered_short(text: &[u8], out: &mut [u8]) -> Result<usize, Refused>
    requires { length text.now ≤ 65536 }
    ensures { TextAnswered text.now out.old out.new result }
{
    let mut reader = Reader::new(text);
    let first = reader.next();
    match kind_of(first) {
        None => poured(SheetForm::Refused(no_form(1)), out),
        Some(kind) => match kind {
            PlanKind::Activity => finish(Dated::over(ActivityBook::new()), reader, out),
            PlanKind::Arrow => finish(Dated::over(ArrowBook::new()), reader, out),
        },
    }
}

/// The answer to a text, written into the caller's bytes; refused where they are too few.
fn answered(text: &[u8], out: &mut [u8]) -> Result<usize, Refused>
    ensures { TextAnswered text.now out.old out.new result }
{
    if text.len() > TEXT_BYTES {
        let too_long = Refusal::TextTooLong.at(Layer::Text, 0);
        return poured(SheetForm::Refused(too_long), out);
    }
    answered_short(text, out)
}

/// Answers the bytes of the forms with the bytes of the sheet, or of the line that says why the text is refused: the
/// count of bytes written, or -14 exactly where the answer is longer than the buffer. After -14 the buffer holds what it
/// held; otherwise its bytes past the count do.
// A number for the refusal, as C is told it.
pub fn answer(forms: &[u8], answer: &mut [u8]) -> i64
    ensures { Answered forms.now answer.old answer.new result }
{
    match answered(forms, answer) {
        Ok(count) => count as i64,
        Err(refused) => -i64::from(refused.why.number()),
    }
}
