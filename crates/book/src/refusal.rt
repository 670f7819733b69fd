//! Why a call is refused, and where.

ghost use Rattle.std.specs.Prelude.{◌≡◌};
ghost use Rattle.book.specs.Refusals.{number as numbered};
ghost use Rattle.book.specs.declared.refusal.Refused.{Refused};

/// The fifteen refusals, in the order of their numbers.
#[derive(Clone, Copy, PartialEq, Eq, Debug)]
pub enum Refusal {
    /// The line is not one of the book's.
    NoSuchLine = 1,
    /// Something stands on the line already.
    LineStands = 2,
    /// Nothing stands on the line.
    LineEmpty = 3,
    /// Days, hours, a lag, a node or a day is out of its range.
    OutOfRange = 4,
    /// Both ends are the same.
    SameEnds = 5,
    /// A relation names a line on which no activity stands.
    NoActivity = 6,
    /// A relation elsewhere names the activity.
    StillNamed = 7,
    /// The event is not one of the book's.
    NoSuchEvent = 8,
    /// The plan is contradictory, so it has no times.
    Contradictory = 9,
    /// There is no such step of a ring.
    NoSuchStep = 10,
    /// There is no such date place.
    NoSuchDatePlace = 11,
    /// Nothing stands on the date place.
    DatePlaceEmpty = 12,
    /// The text line is not one of the forms.
    NoForm = 13,
    /// The buffer is shorter than the output.
    BufferTooShort = 14,
    /// The text is too long.
    TextTooLong = 15,
}

impl Refusal {
    /// The number by which the refusal is told, from 1 to 15.
    pub fn number(self) -> u8
        ensures { result ≡ numbered self }
    {
        self as u8
    }

    /// The refusal, as a layer makes it at a place.
    pub fn at(self, layer: Layer, place: usize) -> Refused
        ensures { result ≡ record { why = self; layer = layer; place = place } }
    {
        Refused {
            why: self,
            layer,
            place,
        }
    }
}

/// The layer that refuses.
#[derive(Clone, Copy, PartialEq, Eq, Debug)]
pub enum Layer {
    Text,
    Dates,
    Book,
    Plan,
}

/// A refused call: why, by which layer, and at which line, date place, event, step or text line.
#[derive(Clone, Copy, PartialEq, Eq, Debug)]
pub struct Refused {
    pub why: Refusal,
    pub layer: Layer,
    pub place: usize,
}
