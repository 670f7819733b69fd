//! The forms of a sheet, as values.

use book::refusal::Refused;
use network::gap::{Gap, Owner};

/// The earliest and the latest time of a start or a finish.
#[derive(Clone, Copy, PartialEq, Eq, Debug)]
pub struct Window {
    pub earliest: u64,
    pub latest: u64,
}

/// What the sheet tells of an activity or an arrow.
#[derive(Clone, Copy)]
pub struct Row {
    pub line: usize,
    pub days: u32,
    pub start: Window,
    pub finish: Window,
    pub free: u64,
}

/// A step of a ring, with the owner of its gap.
#[derive(Clone, Copy)]
pub struct OwnedStep {
    pub owner: Owner,
    pub gap: Gap,
}

/// One line of an answer: of a sheet, or the one that says why a text is refused, by which layer and at which of its lines.
#[derive(Clone, Copy)]
pub enum SheetForm {
    Length(u32),
    Line(Row),
    Contradiction(usize),
    Step(OwnedStep),
    End(usize),
    Refused(Refused),
}
