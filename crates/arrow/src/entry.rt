//! What a line of the arrow book can hold. Any number can stand here: the book judges.

ghost use Rattle.std.specs.Prelude.{◌≡◌};
ghost use Rattle.arrow.specs.Rule.{arrow_in_range, leads};

use book::range::is_within;
use network::gap::Gap;

/// The number of the last node.
pub const NODES: usize = 200;

/// An activity drawn as an arrow: node `to` comes at least `days` days after node `from`.
#[derive(Clone, Copy, PartialEq, Eq, Debug)]
pub struct Arrow {
    pub from: usize,
    pub to: usize,
    pub days: u32,
}

impl Arrow {
    /// Whether both nodes are there and the days are at most 9,999.
    pub fn in_range(&self) -> bool
        ensures { result ≡ arrow_in_range self.now }
    {
        (is_within(self.from, NODES) && is_within(self.to, NODES)) && self.days <= 9_999
    }

    /// The gap that the arrow asks for.
    pub fn asked(&self) -> Gap
        ensures { result ≡ leads self.now }
    {
        Gap {
            left: self.from,
            reached: self.to,
            days: i64::from(self.days),
        }
    }
}
