//! What the forms of a text say to a book of either kind.

ghost use Rattle.std.specs.Prelude.{◌≡◌, ℕ, Option};
ghost use Rattle.forms.specs.declared.form.Item.{Item};
ghost use Rattle.forms.specs.declared.form.Point.{Point};
ghost use Rattle.forms.specs.Spelling.{FewPoint};
ghost use Rattle.gezwaphimo.specs.Words.{entry_of_item, event_of_point, arrow_of_item, node_of_point};

use activity::entry::Entry;
use arrow::entry::Arrow;
use forms::form::{Item, Point};

/// An entry that can be written in a text.
pub(crate) trait Worded: Sized {
    /// The entry that an item says; nothing where the item is of the other kind of plan.
    ghost entry_of: { Item → Option Self };

    /// The event that a point names; nothing where the point is of the other kind of plan.
    ghost event_of: { Point → Option ℕ };

    /// The entry of an item.
    fn entry_of(item: Item) -> Option<Self>
        ensures { result ≡ entry_of item };

    /// The event of a point.
    fn event_of(point: Point) -> Option<usize>
        requires { FewPoint point }
        ensures { result ≡ event_of point };
}

impl Worded for Entry {
    ghost entry_of = { entry_of_item };

    ghost event_of = { event_of_point };

    fn entry_of(item: Item) -> Option<Entry> {
        match item {
            Item::Activity(activity) => Some(Entry::Activity(activity)),
            Item::Relation(relation) => Some(Entry::Relation(relation)),
            Item::Arrow(_) => None,
        }
    }

    fn event_of(point: Point) -> Option<usize> {
        match point {
            Point::Start(line) => Some((2 * line).saturating_sub(1)),
            Point::Finish(line) => Some(2 * line),
            Point::Node(_) => None,
        }
    }
}

impl Worded for Arrow {
    ghost entry_of = { arrow_of_item };

    ghost event_of = { node_of_point };

    fn entry_of(item: Item) -> Option<Arrow> {
        match item {
            Item::Arrow(arrow) => Some(arrow),
            Item::Activity(_) | Item::Relation(_) => None,
        }
    }

    fn event_of(point: Point) -> Option<usize> {
        match point {
            Point::Node(node) => Some(node),
            Point::Start(_) | Point::Finish(_) => None,
        }
    }
}
