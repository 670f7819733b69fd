//! The pieces of each form.

ghost use Rattle.std.specs.Prelude.{◌≡◌, ◌+◌, ◌≤◌, ◌++◌, length, codes, decimal};
ghost use Rattle.sheet_forms.specs.Shown.{shown, row_text, step_text, layer_text, number_of, window_text, float_of, floats_text, refuser, refused_text};
ghost use Rattle.book.specs.Refusals.{number};
ghost use Rattle.sheet_forms.specs.Texts.{text_of};

use crate::form::{OwnedStep, Row, SheetForm, Window};
use crate::pieces::Pieces;
use crate::size::Count;
use crate::text::FormText;
use book::refusal::{Layer, Refused};
use network::gap::Owner;

// The sheet's words are bytes of its own: `Display` would promise them only where the writing ends well.

/// The layer of an owner.
fn layer_name(owner: Owner) -> &'static [u8]
    ensures { result.now ≡ layer_text owner }
{
    match owner {
        Owner::Line(_) => b"book",
        Owner::DatePlace(_) => b"dates",
        Owner::Floor(_) => b"floor",
    }
}

/// The number of an owner in its layer.
fn number_of(owner: Owner) -> u64
    ensures { result ≡ number_of owner }
{
    match owner {
        Owner::Line(number) | Owner::DatePlace(number) | Owner::Floor(number) => number as u64,
    }
}

/// The layer that refuses.
fn refuser_name(layer: Layer) -> &'static [u8]
    ensures { result.now ≡ refuser layer }
{
    match layer {
        Layer::Text => b"text",
        Layer::Dates => b"dates",
        Layer::Book => b"book",
        Layer::Plan => b"plan",
    }
}

/// A word and a number.
fn counted<P: Pieces>(pieces: &mut P, word: &[u8], n: u64)
    requires blank { P.Pieces.taken pieces.old ≡ 0 }
    requires short { length word.now ≤ 20 }
    ensures { P.Pieces.grows pieces.old (word.now ++ (decimal n ++ codes ")\n")) pieces.new }
{
    pieces.push(word);
    pieces.number(n);
    pieces.push(b")\n");
}

impl Window {
    /// By how much the latest time passes the earliest.
    fn float(self) -> u64
        ensures { result ≡ float_of self }
    {
        self.latest.saturating_sub(self.earliest)
    }

    /// The earliest and the latest time.
    fn put<P: Pieces>(self, pieces: &mut P)
        requires { P.Pieces.taken pieces.old ≤ 159 }
        ensures text { P.Pieces.grows pieces.old (window_text self) pieces.new }
        ensures few { P.Pieces.taken pieces.new ≤ P.Pieces.taken pieces.old + 41 }
    {
        pieces.number(self.earliest);
        pieces.push(b" ");
        pieces.number(self.latest);
    }
}

impl Row {
    /// The total floats and the free float.
    fn put_floats<P: Pieces>(self, pieces: &mut P)
        requires { P.Pieces.taken pieces.old ≤ 138 }
        ensures text { P.Pieces.grows pieces.old (floats_text self) pieces.new }
        ensures few { P.Pieces.taken pieces.new ≤ P.Pieces.taken pieces.old + 62 }
    {
        pieces.number(self.start.float());
        pieces.push(b" ");
        pieces.number(self.finish.float());
        pieces.push(b" ");
        pieces.number(self.free);
    }

    /// The line, its windows and its floats.
    fn put<P: Pieces>(self, pieces: &mut P)
        requires { P.Pieces.taken pieces.old ≡ 0 }
        ensures { P.Pieces.grows pieces.old (row_text self) pieces.new }
    {
        pieces.push(b"(line ");
        pieces.number(self.line as u64);
        pieces.push(b" (start ");
        self.start.put(pieces);
        pieces.push(b") (finish ");
        self.finish.put(pieces);
        pieces.push(b") (float ");
        self.put_floats(pieces);
        pieces.push(b"))\n");
    }
}

impl OwnedStep {
    /// The owner, the two events and the days.
    fn put<P: Pieces>(self, pieces: &mut P)
        requires { P.Pieces.taken pieces.old ≡ 0 }
        ensures { P.Pieces.grows pieces.old (step_text self) pieces.new }
    {
        pieces.push(b"(step ");
        pieces.push(layer_name(self.owner));
        pieces.push(b" ");
        pieces.number(number_of(self.owner));
        pieces.push(b" ");
        pieces.number(self.gap.left as u64);
        pieces.push(b" ");
        pieces.number(self.gap.reached as u64);
        pieces.push(b" ");
        pieces.days(self.gap.days);
        pieces.push(b")\n");
    }
}

/// The text line, the layer and the number of a refusal.
fn put_refusal<P: Pieces>(refused: Refused, pieces: &mut P)
    requires { P.Pieces.taken pieces.old ≡ 0 }
    ensures { P.Pieces.grows pieces.old (refused_text refused.place refused.layer (number refused.why)) pieces.new }
{
    pieces.push(b"(refused ");
    pieces.number(refused.place as u64);
    pieces.push(b" ");
    pieces.push(refuser_name(refused.layer));
    pieces.push(b" ");
    pieces.number(u64::from(refused.why.number()));
    pieces.push(b")\n");
}

impl SheetForm {
    /// The pieces of the form.
    fn put<P: Pieces>(&self, pieces: &mut P)
        requires { P.Pieces.taken pieces.old ≡ 0 }
        ensures { P.Pieces.grows pieces.old (shown self.now) pieces.new }
    {
        match *self {
            SheetForm::Length(days) => counted(pieces, b"(length ", u64::from(days)),
            SheetForm::Line(row) => row.put(pieces),
            SheetForm::Contradiction(steps) => counted(pieces, b"(contradiction ", steps as u64),
            SheetForm::Step(step) => step.put(pieces),
            SheetForm::Refused(refused) => put_refusal(refused, pieces),
            SheetForm::End(count) => counted(pieces, b"(end ", count as u64),
        }
    }

    /// The bytes of the form.
    pub fn text(&self) -> FormText
        ensures { text_of result ≡ shown self.now }
    {
        let mut text = FormText::blank();
        self.put(&mut text);
        text
    }

    /// How many bytes the form has.
    pub fn size(&self) -> usize
        ensures { result ≡ length (shown self.now) }
    {
        let mut count = Count { bytes: 0 };
        self.put(&mut count);
        count.bytes
    }
}
