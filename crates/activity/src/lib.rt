//! The activity book: activities, whole or broken, and relations between their starts and finishes.

#![tactic(auto)]

use crate::lines::ActivityLines;
use line_book::LineBook;

pub mod entry;
pub mod lines;
mod places;

/// 400 lines of activities and relations: the activity on line p starts at event 2p - 1 and finishes at event 2p.
pub type ActivityBook = LineBook<ActivityLines>;
