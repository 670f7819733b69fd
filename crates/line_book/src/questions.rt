//! The network that a book of 400 lines is.

ghost use Rattle.book.specs.Rules.{network_of};
ghost use Rattle.line_book.specs.LineBooks.{book_of};
ghost use Rattle.book.proofs.Lawful.{network_lawful};

use crate::LineBook;
use crate::lines::Lines;
use network::gap::{Gap, Owner};
use network::network::Network;

impl<L: Lines> Network for LineBook<L> {
    ghost network = { λ b. network_of (book_of L.Lines.rule (L.Lines.standing b.lines)) };

    ghost lawful = { λ n. network_lawful (book_of L.Lines.rule (L.Lines.standing n.lines)) L.Lines.lawful };

    fn events(&self) -> usize {
        L::events()
    }

    fn places(&self) -> usize {
        L::places()
    }

    fn gap(&self, place: usize) -> Option<Gap> {
        match L::owner(place) {
            Owner::Line(p) => L::gap(p, self.lines.get(p)?, place),
            Owner::DatePlace(_) | Owner::Floor(_) => None,
        }
    }

    fn owner(&self, place: usize) -> Owner {
        L::owner(place)
    }
}
