//! The date layer: dates laid over any book, itself a book of the same lines and events.

#![tactic(auto)]

pub mod layer;
