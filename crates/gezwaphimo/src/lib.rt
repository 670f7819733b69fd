//! The whole engine behind one call: from the bytes of a text to the bytes of its answer.

#![tactic(auto)]

pub mod answer;
mod finish;
mod hear;
mod line;
mod said;
mod words;
