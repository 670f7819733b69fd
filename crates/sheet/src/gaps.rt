//! What a gap leaves of the room of the event that it leaves.

ghost use Rattle.std.specs.Prelude.{◌≡◌, ℕ, ◌-◌, ◌<◌, ◌≤◌, cond, length, pos, negsuc, ◌-ℤ◌, ◌≤ℤ◌};
ghost use Rattle.sheet.specs.Rooms.{line_of, counted, narrowed_to};

use crate::span::Moves;

/// The line that has the event as its start or its finish.
fn line_of(event: usize) -> usize
    ensures { result ≡ line_of event }
{
    event.div_ceil(2)
}

/// Whether a gap holds its left event back, where that is raised: the reached one is not raised with it.
pub(crate) fn counts(moves: Moves, left: usize, reached: usize) -> bool
    ensures { result ≡ counted moves left reached }
{
    match moves {
        Moves::Finish => reached != left,
        Moves::Both => line_of(reached) != line_of(left),
    }
}

/// The days by which a gap is more than met.
pub(crate) fn slack(left: u32, reached: u32, days: i64) -> i64
    requires low { negsuc 99998 ≤ℤ days }
    requires high { days ≤ℤ pos 99999 }
    ensures { result ≡ (pos reached -ℤ pos left) -ℤ days }
{
    i64::from(reached) - i64::from(left) - days
}

/// What is left of a room beside a gap of so much slack.
pub(crate) fn narrowed(room: u32, slack: i64) -> u32
    ensures { result ≡ narrowed_to room slack }
{
    slack.max(0).min(i64::from(room)) as u32
}
