//! Books: networks that take entries on lines. The dates, the refusals, and the trait that every book implements.

#![tactic(auto)]

pub mod date;
pub mod range;
pub mod refusal;
pub mod traits;
