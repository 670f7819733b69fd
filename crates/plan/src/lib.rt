//! Plans over any book: open, to be entered and dated, and issued, to be read.

#![tactic(auto)]

pub mod issued;
pub mod open;
