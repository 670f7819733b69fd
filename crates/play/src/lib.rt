//! A list of plan calls of every kind, carried out in order and ending issued.

#![tactic(auto)]

pub mod call;
pub mod play;
mod stage;
