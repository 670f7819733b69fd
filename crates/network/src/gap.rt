//! What a place of a network holds, and who owns the place.

/// Asks that the time of the event `reached` be at least the time of the event `left` plus `days`.
#[derive(Clone, Copy, PartialEq, Eq, Debug)]
pub struct Gap {
    pub left: usize,
    pub reached: usize,
    pub days: i64,
}

/// The owner of a place: a line of the book, a date place of a layer, or nobody but the floor; each with its number.
#[derive(Clone, Copy, PartialEq, Eq, Debug)]
pub enum Owner {
    Line(usize),
    DatePlace(usize),
    Floor(usize),
}

/// One step of a ring: the place that holds the gap, or 0 where the step is the floor.
// The floor's step tells place 0 by rule, and any network answers that 0 is the floor's: an Option would be told as 0 again.
#[derive(Clone, Copy, PartialEq, Eq, Debug)]
pub struct Step {
    pub place: usize,
    pub gap: Gap,
}
