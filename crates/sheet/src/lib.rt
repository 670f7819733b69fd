//! The sheet of an issued plan: for each standing activity or arrow its windows, its total floats and its free float;
//! or the ring of a plan that no schedule meets.

#![tactic(auto)]

mod gaps;
mod room;
mod row;
pub mod sheet;
pub mod span;
pub mod spanned;
pub mod spans;
mod stride;
mod told;
mod walk;
