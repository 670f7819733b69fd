//! The earliest and latest times of any network, or a ring that shows that it has no schedule.

#![tactic(auto)]

mod arc;
mod arcs;
mod fall;
mod order;
pub mod ring;
mod rise;
pub mod solve;
pub mod times;
