//! The network that a dated book is: the places below, and one place for each date of the layer.

ghost use Rattle.std.specs.Prelude.{◌≡◌, if◌then◌else◌, Some, None};
ghost use Rattle.book.specs.Layers.{asked, date_in_range};
ghost use Rattle.book.specs.Rules.{after, network_of};
ghost use Rattle.table.specs.Standing.{standing};
ghost use Rattle.dates.specs.Layered.{layered, over};
ghost use Rattle.book.proofs.Lawful.{network_lawful};
ghost use Rattle.book.proofs.Layers.{layer_lawful};

use crate::layer::{Dated, asked_gap, in_range, room_over};
use book::traits::Book;
use network::gap::{Gap, Owner};
use network::network::Network;

impl<B: Book> Dated<B> {
    /// What one of the layer's own places holds, counted from 1.
    fn own_gap(&self, k: usize) -> Option<Gap>
        ensures { result ≡ after (standing self.now.own k) (λ d. (if date_in_range (B.Book.meaning self.now.below).rule.events d then Some (asked d) else None)) }
    {
        match self.own.get(k) {
            Some(d) if in_range(self.below.events(), d) => Some(asked_gap(d)),
            _ => None,
        }
    }
}

impl<B: Book> Network for Dated<B> {
    ghost network = { λ s. network_of (over B.Book.meaning s) };

    ghost lawful = { λ n.
        let m = B.Book.meaning n.below in
        network_lawful (layered m (standing n.own)) (layer_lawful m.rule (B.Book.keeps n.below).rule) };

    fn events(&self) -> usize {
        self.below.events()
    }

    fn places(&self) -> usize {
        let below = self.below.places();
        below + room_over(below)
    }

    fn gap(&self, place: usize) -> Option<Gap> {
        let below = self.below.places();
        if place <= below {
            return self.below.gap(place);
        }
        if place - below > room_over(below) {
            return None;
        }
        self.own_gap(place - below)
    }

    fn owner(&self, place: usize) -> Owner {
        let below = self.below.places();
        if place <= below {
            return self.below.owner(place);
        }
        if place - below > room_over(below) {
            return Owner::Floor(0);
        }
        Owner::DatePlace(self.below.dates() + (place - below))
    }
}
