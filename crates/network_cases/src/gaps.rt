//! Events, places and gaps, as a case gives them.

ghost use Rattle.std.specs.Prelude.{◌≡◌, length};

use network::gap::Gap;

/// As many places as a network can have.
pub const PLACES: usize = 4_096;

/// A place that holds nothing of note.
const NO_GAP: Gap = Gap {
    left: 0,
    reached: 0,
    days: 0,
};

/// So many events and places; a gap that a network could not have is passed over.
// A table of fixed size with its count beside: a Vec ran out of memory where the table does not.
#[derive(Drop)]
pub struct Made {
    pub events: usize,
    pub places: usize,
    pub gaps: [Gap; PLACES],
    ghost filled: { length gaps ≡ 4096 },
}

impl Made {
    /// So many events, with a gap for each event left, event reached and days.
    pub fn of(events: usize, listed: &[(usize, usize, i64)]) -> Made {
        let mut made = Made {
            events,
            places: 0,
            gaps: [NO_GAP; PLACES],
        };
        for (left, reached, days) in listed {
            made.add(Gap {
                left: *left,
                reached: *reached,
                days: *days,
            });
        }
        made
    }

    /// One place more, with a gap in it, where there is room.
    pub fn add(&mut self, gap: Gap) {
        let next = self.places;
        if next < PLACES {
            self.gaps[next] = gap;
            self.places = next + 1;
        }
    }
}
