//! The table of times of a network that has a schedule.

ghost use Rattle.std.specs.Prelude.{◌≡◌, ℕ, ◌≤◌, length as size, slice_index};

mod readings;
mod windows;

pub(crate) use crate::times::windows::windows as windows_of;

/// The earliest and the latest time of each event from 0 to `events`, and the length:
/// no event's earliest time passes its latest, and no latest time passes the length.
// Two tables and not one of pairs: each is made by passes over it alone, and stands as they left it.
#[derive(Drop)]
pub struct Times {
    events: usize,
    earliest: [u32; 1024],
    latest: [u32; 1024],
    length: u32,
    ghost small: { events ≤ 1023 },
    ghost early: { size earliest ≡ 1024 },
    ghost late: { size latest ≡ 1024 },
    ghost windows: { (e : ℕ) → e ≤ events → slice_index earliest e ≤ slice_index latest e },
    ghost within: { (e : ℕ) → e ≤ events → slice_index latest e ≤ length },
}
