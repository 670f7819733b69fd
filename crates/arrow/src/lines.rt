//! The lines of the arrow book, and the rule they go by.

ghost use Rattle.std.specs.Prelude.{◌≡◌};
ghost use Rattle.table.specs.Standing.{standing, changed};
ghost use Rattle.arrow.specs.Rule.{arrow_rule};
ghost use Rattle.arrow.specs.Lawful.{arrow_lawful};
ghost use Rattle.table.proofs.Tables.{in_table};
ghost use Rattle.std.proofs.Common.{rules};

use crate::entry::{Arrow, NODES};
use book::range::is_within;
use book::refusal::Refusal;
use line_book::lines::Lines;
use network::gap::{Gap, Owner};
use table::{LINES, LineTable, Table};

/// 400 lines of arrows.
// A kind of lines holds its own table, and hands it on: a book over the entries alone would leave no place in this crate at
// which it is said what stands on a new book.
#[derive(Drop)]
pub struct ArrowLines {
    table: LineTable<Arrow>,
}

impl Lines for ArrowLines {
    type Entry = Arrow;

    ghost rule = { arrow_rule };

    ghost standing = { λ l. standing l.table };

    ghost lawful = { arrow_lawful };

    ghost only = { Prim.search rules };

    ghost table = { λ l. in_table l.table };

    fn blank() -> ArrowLines {
        ArrowLines {
            table: Table::new(),
        }
    }

    fn get(&self, p: usize) -> Option<Arrow> {
        self.table.get(p)
    }

    // the check asks for the trait's clause again here
    fn put(&mut self, p: usize, stands: Option<Arrow>)
        ensures { standing self.new.table ≡ changed 400 (standing self.old.table) p stands }
    {
        self.table.put(p, stands);
    }

    fn events() -> usize {
        NODES
    }

    fn places() -> usize {
        LINES
    }

    fn owner(place: usize) -> Owner {
        if is_within(place, LINES) {
            Owner::Line(place)
        } else {
            Owner::Floor(0)
        }
    }

    fn gap(p: usize, e: Arrow, place: usize) -> Option<Gap> {
        if is_within(p, LINES) && e.in_range() && place == p {
            Some(e.asked())
        } else {
            None
        }
    }

    fn judged(&self, _p: usize, e: Arrow) -> Result<(), Refusal> {
        if !e.in_range() {
            Err(Refusal::OutOfRange)
        } else if e.from == e.to {
            Err(Refusal::SameEnds)
        } else {
            Ok(())
        }
    }

    fn strikes(&self, _p: usize) -> bool {
        true
    }

    fn alters(&self, p: usize, _e: Arrow) -> bool {
        self.strikes(p)
    }
}
