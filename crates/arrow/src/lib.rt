//! The arrow book: activities drawn as arrows between nodes, and the nodes as events.

#![tactic(auto)]

use crate::lines::ArrowLines;
use line_book::LineBook;

pub mod entry;
pub mod lines;

/// 400 lines of arrows between nodes 1 to 200, which are the events.
pub type ArrowBook = LineBook<ArrowLines>;
