//! How far each event can be raised.

ghost use Rattle.std.specs.Prelude.{◌≡◌, length};

mod narrow;
mod pass;

pub(crate) use crate::room::pass::rooms_of;

/// The days by which each event can still be raised.
#[derive(Drop)]
pub(crate) struct Rooms {
    pub days: [u32; 1024],
    ghost whole: { length days ≡ 1024 },
}

/// The same for an event alone, and for an event with the other one of its line.
// Two tables side by side: each is a table of rooms of its own, narrowed by a rule of its own.
#[derive(Drop)]
pub(crate) struct AllRooms {
    pub alone: Rooms,
    pub both: Rooms,
}
