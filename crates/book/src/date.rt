//! Dates laid over a book.

/// Which side of a number is asked for: at least that many days, or at most.
#[derive(Clone, Copy, PartialEq, Eq, Debug)]
pub enum Bound {
    Least,
    Most,
}

/// Asks that an event take place on a day or later, or on a day or earlier.
/// Any number can stand here: the book judges.
#[derive(Clone, Copy, PartialEq, Eq, Debug)]
pub struct Date {
    pub event: usize,
    pub bound: Bound,
    pub day: u32,
}
