//! Times that rise until every arc is met.

ghost use Rattle.std.specs.Prelude.{◌≡◌, length};

mod begin;
mod longest;
mod look;
mod parent;
mod settle;
mod sweep;

pub(crate) use crate::rise::longest::longest;

/// The times of the events, and for each event the arc that last raised it, counted from 1, or 0.
// 0 stands for none: an Option takes twice the stack.
// Two tables and not one of pairs, which would have unused bytes.
#[derive(Drop)]
pub(crate) struct Rise {
    pub times: [u32; 1024],
    pub parents: [u16; 1024],
    ghost timed: { length times ≡ 1024 },
    ghost tied: { length parents ≡ 1024 },
}
