//! One pass over the places.

ghost use Rattle.std.specs.Prelude.{◌≡◌, ℕ, ◌+◌, ◌-◌, ◌<◌, slice_index};
ghost use Rattle.book.specs.Rules.{network_of};
ghost use Rattle.sheet.specs.Rooms.{RoomsBy, RoomsFor};
ghost use Rattle.sheet.specs.Rows.{earliest_told, length_told};

use crate::gaps::slack;
use crate::room::{AllRooms, Rooms};
use crate::span::Moves;
use crate::told::{earliest_told, length_told};
use book::traits::Book;
use plan::issued::IssuedPlan;

/// The days from each event's earliest time to the end of the plan.
fn until_the_end<B: Book>(plan: &IssuedPlan<B>) -> Rooms
    ensures { (e : ℕ) → e < 1024 → slice_index result.days e ≡ length_told plan.now.outcome - earliest_told plan.now.outcome e }
{
    let end = length_told(plan);
    // array::from_fn would make the same table; tried, and the search for the proof of its contract ran out of memory
    let mut days = [0; 1024];
    for (event, day) in days.iter_mut().enumerate() {
        *day = end.saturating_sub(earliest_told(plan, event));
    }
    Rooms { days }
}

impl AllRooms {
    /// Narrows the rooms by the gap in a place, where there is one.
    fn narrow<B: Book>(&mut self, plan: &IssuedPlan<B>, place: usize)
        ensures { RoomsBy (network_of (B.Book.meaning plan.now.book)) (earliest_told plan.now.outcome) (length_told plan.now.outcome) place self.old.alone.days self.old.both.days → RoomsBy (network_of (B.Book.meaning plan.now.book)) (earliest_told plan.now.outcome) (length_told plan.now.outcome) (place + 1) self.new.alone.days self.new.both.days }
    {
        if let Some(gap) = plan.book().gap(place) {
            let left = earliest_told(plan, gap.left);
            let reached = earliest_told(plan, gap.reached);
            let days = slack(left, reached, gap.days);
            self.alone
                .narrow(Moves::Finish, gap.left, gap.reached, days);
            self.both.narrow(Moves::Both, gap.left, gap.reached, days);
        }
    }
}

/// The room of each event, alone and with the other event of its line, from one pass over the places.
pub(crate) fn rooms_of<B: Book>(plan: &IssuedPlan<B>) -> AllRooms
    ensures { RoomsFor (network_of (B.Book.meaning plan.now.book)) (earliest_told plan.now.outcome) (length_told plan.now.outcome) result.alone.days result.both.days }
{
    let mut rooms = AllRooms {
        alone: until_the_end(plan),
        both: until_the_end(plan),
    };
    for place in 1..=plan.book().places() {
        rooms.narrow(plan, place);
    }
    rooms
}
