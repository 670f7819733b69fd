//! A book that leaves room for six more places: 400 lines own 4,090 places, which hold nothing.

ghost use Rattle.std.specs.Prelude.{◌≡◌};
ghost use Rattle.table.specs.Standing.{standing, changed};
ghost use Rattle.book_tests.specs.Cramped.{cramped_rule};
ghost use Rattle.book_tests.specs.Lawful.{cramped_lawful};
ghost use Rattle.table.proofs.Tables.{in_table};
ghost use Rattle.std.proofs.Common.{rules};

use book::range::is_within;
use book::refusal::Refusal;
use line_book::LineBook;
use line_book::lines::Lines;
use network::gap::{Gap, Owner};
use table::{LINES, LineTable, Table};

/// An entry that asks for nothing.
#[derive(Clone, Copy, PartialEq, Eq, Debug)]
pub struct Mark;

/// 400 lines of marks.
#[derive(Drop)]
pub struct CrampedLines {
    table: LineTable<Mark>,
}

/// A book of 4,090 places.
pub type CrampedBook = LineBook<CrampedLines>;

impl Lines for CrampedLines {
    type Entry = Mark;

    ghost rule = { cramped_rule };

    ghost standing = { λ l. standing l.table };

    ghost lawful = { cramped_lawful };

    ghost only = { Prim.search rules };

    ghost table = { λ l. in_table l.table };

    fn blank() -> CrampedLines {
        CrampedLines {
            table: Table::new(),
        }
    }

    fn get(&self, p: usize) -> Option<Mark> {
        self.table.get(p)
    }

    // the check asks for the trait's clause again here
    fn put(&mut self, p: usize, stands: Option<Mark>)
        ensures { standing self.new.table ≡ changed 400 (standing self.old.table) p stands }
    {
        self.table.put(p, stands);
    }

    fn events() -> usize {
        3
    }

    fn places() -> usize {
        4_090
    }

    fn owner(place: usize) -> Owner {
        if is_within(place, 4_090) {
            Owner::Line((place - 1) % LINES + 1)
        } else {
            Owner::Floor(0)
        }
    }

    fn gap(_p: usize, _e: Mark, _place: usize) -> Option<Gap> {
        None
    }

    fn judged(&self, _p: usize, _e: Mark) -> Result<(), Refusal> {
        Ok(())
    }

    fn strikes(&self, _p: usize) -> bool {
        true
    }

    fn alters(&self, _p: usize, _e: Mark) -> bool {
        true
    }
}
