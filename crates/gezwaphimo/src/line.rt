//! One form, written into the caller's bytes where it fits.

ghost use Rattle.sheet_forms.specs.Shown.{shown};
ghost use Rattle.gezwaphimo.specs.Texts.{Poured};

use book::refusal::{Layer, Refusal, Refused};
use sheet_forms::form::SheetForm;

/// Writes a form, and says how many bytes it has; refused where they are more than there is room for.
pub(crate) fn poured(form: SheetForm, out: &mut [u8]) -> Result<usize, Refused>
    ensures { Poured (shown form) out.old out.new result }
{
    let text = form.text();
    let bytes = text.bytes();
    let count = bytes.len();
    if count <= out.len() {
        out[..count].copy_from_slice(bytes);
        Ok(count)
    } else {
        Err(Refusal::BufferTooShort.at(Layer::Plan, 0))
    }
}
