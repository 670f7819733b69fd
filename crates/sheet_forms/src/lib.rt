//! The forms of a sheet, and the bytes that each is shown as.

#![tactic(auto)]

pub mod form;
mod pieces;
mod shown;
mod size;
pub mod text;
