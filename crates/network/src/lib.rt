//! Networks of gaps between events: the types, and the questions that every network answers.

#![tactic(auto)]

pub mod gap;
pub mod network;
