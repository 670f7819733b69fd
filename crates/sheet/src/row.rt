//! The row of a span.

ghost use Rattle.std.specs.Prelude.{◌≡◌, ◌≤◌, slice_index};
ghost use Rattle.sheet.specs.Walking.{free_by, window_of, activity_row, arrow_row, row_of};

use crate::room::{AllRooms, Rooms};
use crate::span::{Moves, Span};
use crate::told::{earliest_told, latest_told};
use arrow::entry::Arrow;
use book::traits::Book;
use plan::issued::IssuedPlan;
use sheet_forms::form::{Row, Window};

// That a line is at least 1 and at most 4,096 keeps the numbers of its events in range. A row is made of a line that the walk
// over the book's lines has found, which are numbered and no type of their own.

/// What the rows of a sheet are made from: a plan, and the room of each of its events.
#[derive(Drop)]
pub(crate) struct Rows<'a, B: Book> {
    pub plan: &'a IssuedPlan<B>,
    pub rooms: AllRooms,
}

impl Rooms {
    /// The room of an event; 0 where there is no such event.
    fn of(&self, event: usize) -> u32
        ensures { result ≡ slice_index self.now.days event }
    {
        self.days.get(event).copied().unwrap_or(0)
    }
}

impl AllRooms {
    /// The free float of the activity on a line.
    fn free(&self, moves: Moves, line: usize) -> u32
        requires some { 1 ≤ line }
        requires few { line ≤ 4096 }
        ensures { result ≡ free_by self.now moves line }
    {
        match moves {
            Moves::Finish => self.alone.of(2 * line),
            Moves::Both => self.both.of(2 * line - 1).min(self.both.of(2 * line)),
        }
    }
}

impl<B: Book> Rows<'_, B> {
    /// The window of an event.
    fn window_of(&self, event: usize) -> Window
        ensures { result ≡ window_of self.now event }
    {
        Window {
            earliest: u64::from(earliest_told(self.plan, event)),
            latest: u64::from(latest_told(self.plan, event)),
        }
    }

    /// The row of an activity.
    fn activity_row(&self, line: usize, days: u32, moves: Moves) -> Row
        requires some { 1 ≤ line }
        requires few { line ≤ 4096 }
        ensures { result ≡ activity_row self.now line days moves }
    {
        Row {
            line,
            days,
            start: self.window_of(2 * line - 1),
            finish: self.window_of(2 * line),
            free: u64::from(self.rooms.free(moves, line)),
        }
    }

    /// The row of an arrow.
    fn arrow_row(&self, line: usize, arrow: Arrow) -> Row
        ensures { result ≡ arrow_row self.now line arrow }
    {
        let start = u64::from(earliest_told(self.plan, arrow.from));
        let finish = u64::from(latest_told(self.plan, arrow.to));
        let run = u64::from(arrow.days);
        Row {
            line,
            days: arrow.days,
            start: Window {
                earliest: start,
                latest: finish.saturating_sub(run),
            },
            finish: Window {
                earliest: start + run,
                latest: finish,
            },
            free: u64::from(earliest_told(self.plan, arrow.to)).saturating_sub(start + run),
        }
    }

    /// The row of a span on a line.
    pub(crate) fn row_of(&self, line: usize, span: Span) -> Row
        requires some { 1 ≤ line }
        requires few { line ≤ 4096 }
        ensures { result ≡ row_of self.now line span }
    {
        match span {
            Span::Activity(days, moves) => self.activity_row(line, days, moves),
            Span::Arrow(arrow) => self.arrow_row(line, arrow),
        }
    }
}
