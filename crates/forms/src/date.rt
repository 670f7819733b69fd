//! A date, as it is written between brackets.

ghost use Rattle.std.specs.Prelude.{◌≡◌};
ghost use Rattle.forms.specs.Parts.{point_of, point_at, date_at};
ghost use Rattle.forms.specs.Steps.{Takes};

use crate::form::Point;
use crate::names::PointKind;
use crate::reader::Reader;
use book::date::Bound;

/// The event of a kind with a number.
fn point_of(kind: PointKind, n: usize) -> Point
    ensures { result ≡ point_of kind n }
{
    match kind {
        PointKind::Start => Point::Start(n),
        PointKind::Finish => Point::Finish(n),
        PointKind::Node => Point::Node(n),
    }
}

impl Reader<'_> {
    /// The event that a date names, with the space after it.
    #[tactic(auto, unfolding(crate::specs::Parts::point_at))]
    fn point(&mut self) -> Option<Point>
        ensures { Takes point_at self.old self.new result }
    {
        let kind = self.word(b' ')?;
        let n = self.word(b' ')?;
        Some(point_of(kind, n))
    }

    /// A date between brackets: its event, its bound and its day.
    #[tactic(auto, unfolding(crate::specs::Parts::date_at))]
    pub(crate) fn date(&mut self) -> Option<(Point, Bound, u32)>
        ensures { Takes date_at self.old self.new result }
    {
        self.byte(b'(')?;
        let point = self.point()?;
        let bound = self.word(b' ')?;
        let day = self.word(b')')?;
        Some((point, bound, day))
    }
}
