//! Forms: the lines of text in which a plan is entered, read byte by byte.

#![tactic(auto)]

mod date;
pub mod form;
mod item;
mod line;
pub mod mark;
mod names;
mod number;
pub mod reader;
mod spelled;
mod word;
