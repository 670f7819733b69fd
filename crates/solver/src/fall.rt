//! Times that fall until every arc is met.

ghost use Rattle.std.specs.Prelude.{◌≡◌, length};

mod settle;
mod sweep;

// The bound of the times, and that they are above the earliest ones, are facts of the times and the arcs together. No field
// of either holds them, so they stand in the clauses of the passes here and in `rise`.

// The arcs and the order are handed on side by side, since no clause names the order, which is only a hint.

// A fall is no rise of another direction: it keeps no arc for an event, and rests on the earliest times below it. One code
// for both would carry the parents and the clauses of each through the other.

/// The latest times of the events.
#[derive(Drop)]
pub(crate) struct Fall {
    pub times: [u32; 1024],
    ghost timed: { length times ≡ 1024 },
}
