//! The book of 400 lines, written once for every kind of lines.

#![tactic(auto)]

use crate::lines::Lines;

mod calls;
pub mod lines;
mod questions;
mod verdicts;

/// A book of 400 lines and no date places.
#[derive(Drop)]
pub struct LineBook<L: Lines> {
    lines: L,
}
