//! The questions that every network answers.

ghost use Rattle.std.specs.Prelude.{◌≡◌};
ghost use Rattle.network.specs.Meanings.{Meaning, Lawful};

use crate::gap::{Gap, Owner};

/// Events numbered from 0, and places numbered from 1, each of which holds one gap or nothing.
/// Asking alters nothing.
pub trait Network {
    /// What the network tells: its events, its places, and at each place the gap and the owner.
    ghost network: { Self → Meaning };

    /// The number of the last event, N.
    fn events(&self) -> usize
        ensures { result ≡ (network self.now).events };

    /// The number of the last place, G.
    fn places(&self) -> usize
        ensures { result ≡ (network self.now).places };

    /// The gap in a place, or nothing; nothing outside 1 to G.
    fn gap(&self, place: usize) -> Option<Gap>
        ensures { result ≡ (network self.now).gap place };

    /// The owner of a place; the floor, with number 0, outside 1 to G.
    fn owner(&self, place: usize) -> Owner
        ensures { result ≡ (network self.now).owner place };

    /// N is at most 1,023 and G at most 4,096; gaps go between events 0 to N and have at most 99,999 days
    /// either way; and there is nothing outside places 1 to G.
    ghost lawful: { (n : Self) → Lawful (network n) };
}
