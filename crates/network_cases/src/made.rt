//! A network made of any list of gaps, so that the solver meets what no book asks for.

ghost use Rattle.std.specs.Prelude.{◌≡◌};
ghost use Rattle.network_cases.specs.Made.{fits, made_of};
ghost use Rattle.std.proofs.Common.{rules};

use crate::gaps::{Made, PLACES};
use network::gap::{Gap, Owner};
use network::network::Network;

/// Whether a network with so many events can have the gap.
fn is_fit(events: usize, gap: Gap) -> bool
    ensures { result ≡ fits events gap }
{
    gap.left <= events && gap.reached <= events && gap.days.unsigned_abs() <= 99_999
}

impl Network for Made {
    ghost network = { made_of };

    ghost lawful = { Prim.search rules };

    fn events(&self) -> usize {
        self.events.min(1_023)
    }

    fn places(&self) -> usize {
        self.places.min(PLACES)
    }

    fn gap(&self, place: usize) -> Option<Gap> {
        if (1..=self.places()).contains(&place) {
            let gap = self.gaps[place - 1];
            if is_fit(self.events(), gap) {
                return Some(gap);
            }
        }
        None
    }

    fn owner(&self, place: usize) -> Owner {
        if (1..=self.places()).contains(&place) {
            Owner::Line(place)
        } else {
            Owner::Floor(0)
        }
    }
}
