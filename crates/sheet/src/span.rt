//! What a row of the sheet tells the times of.

use arrow::entry::Arrow;

/// Which events of an activity a free float moves.
#[derive(Clone, Copy, PartialEq, Eq, Debug)]
pub enum Moves {
    /// The finish alone.
    Finish,
    /// The start with the finish, since the activity runs without a break.
    Both,
}

/// Work that a row is for: an activity, whose events are those of its line, or an arrow between two nodes.
#[derive(Clone, Copy, PartialEq, Eq, Debug)]
pub enum Span {
    Activity(u32, Moves),
    Arrow(Arrow),
}
