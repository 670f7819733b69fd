//! One gap more.

ghost use Rattle.std.specs.Prelude.{◌≡◌, ◌<◌, if◌then◌else◌, slice_index, slice_set};
ghost use Rattle.sheet.specs.Rooms.{counted, narrowed_to};

use crate::gaps::{counts, narrowed};
use crate::room::Rooms;
use crate::span::Moves;

impl Rooms {
    /// Narrows the room of the event that a gap leaves, where the gap holds it back.
    pub(crate) fn narrow(&mut self, moves: Moves, left: usize, reached: usize, slack: i64)
        requires { left < 1024 }
        ensures { self.new.days ≡ (if counted moves left reached then slice_set self.old.days left (narrowed_to (slice_index self.old.days left) slack) else self.old.days) }
    {
        if counts(moves, left, reached) {
            self.days[left] = narrowed(self.days[left], slack);
        }
    }
}
