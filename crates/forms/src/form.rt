//! What one line of a text says. Any number can stand here: the book judges.

use activity::entry::{Activity, Relation};
use arrow::entry::Arrow;
use book::date::Bound;

/// Which book a plan is kept in.
#[derive(Clone, Copy, PartialEq, Eq, Debug)]
pub enum PlanKind {
    Activity,
    Arrow,
}

/// The event that a date names, as it is written: the start or the finish of the activity on a line, or a node.
#[derive(Clone, Copy, PartialEq, Eq, Debug)]
pub enum Point {
    Start(usize),
    Finish(usize),
    Node(usize),
}

/// What is to stand on a line of a book.
#[derive(Clone, Copy, PartialEq, Eq, Debug)]
pub enum Item {
    Activity(Activity),
    Relation(Relation),
    Arrow(Arrow),
}

/// What one line of a text says: which plan to begin, or what to do on a numbered line of its book or of its dates.
#[derive(Clone, Copy, PartialEq, Eq, Debug)]
pub enum Form {
    Plan(PlanKind),
    Enter(usize, Item),
    Alter(usize, Item),
    Strike(usize),
    Date(usize, Point, Bound, u32),
    Clear(usize),
}
