//! A form, said to a book.

ghost use Rattle.std.specs.Prelude.{◌≡◌};
ghost use Rattle.forms.specs.Spelling.{Short};
ghost use Rattle.gezwaphimo.specs.declared.said.Unsaid.TheVariants as variants;
ghost use Rattle.gezwaphimo.specs.Hearing.{SaidBy};
ghost use Rattle.gezwaphimo.specs.Words.{call_of};

use crate::words::Worded;
use book::date::Date;
use book::refusal::Refused;
use book::traits::Book;
use forms::form::Form;

/// Why a form is not carried out.
#[derive(Clone, Copy)]
pub(crate) enum Unsaid {
    /// It says no call of this kind of plan.
    NoCall,
    /// Its call is refused.
    Refused(Refused),
}

impl From<Refused> for Unsaid {
    ghost from_gives = { λ refused e. e ≡ variants.Refused refused };

    fn from(refused: Refused) -> Unsaid {
        Unsaid::Refused(refused)
    }
}

/// Makes the call that a form says.
pub(crate) fn say_to<B: Book>(book: &mut B, form: Form) -> Result<(), Unsaid>
where
    B::Entry: Worded,
    requires { Short form }
    ensures { SaidBy (call_of B.Entry.Worded.entry_of B.Entry.Worded.event_of form) (B.Book.meaning book.old) (B.Book.meaning book.new) result }
{
    match form {
        Form::Plan(_) => Err(Unsaid::NoCall),
        Form::Enter(line, item) => {
            let entry = <B::Entry as Worded>::entry_of(item).ok_or(Unsaid::NoCall)?;
            Ok(book.enter(line, entry)?)
        }
        Form::Alter(line, item) => {
            let entry = <B::Entry as Worded>::entry_of(item).ok_or(Unsaid::NoCall)?;
            Ok(book.alter(line, entry)?)
        }
        Form::Strike(line) => Ok(book.strike(line)?),
        Form::Date(place, point, bound, day) => {
            let event = <B::Entry as Worded>::event_of(point).ok_or(Unsaid::NoCall)?;
            Ok(book.date(place, Date { event, bound, day })?)
        }
        Form::Clear(place) => Ok(book.clear(place)?),
    }
}
