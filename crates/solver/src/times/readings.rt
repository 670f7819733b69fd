//! What a table of times tells.

ghost use Rattle.std.specs.Prelude.{◌≡◌, if◌then◌else◌, Some, None, nat_le};
ghost use Rattle.solver.specs.Solutions.{earliest_of, latest_of, Noughts};

use crate::times::Times;
use network::network::Network;

impl Times {
    /// A table of noughts, for a network that has no schedule.
    pub fn zero<N: Network>(network: &N) -> Times
        ensures events { result.events ≡ (N.Network.network network.now).events }
        ensures noughts { Noughts result }
    {
        let events = network.events();
        Times {
            events,
            earliest: [0; 1024],
            latest: [0; 1024],
            length: 0,
        }
    }

    /// The number of the last event.
    pub fn events(&self) -> usize
        ensures { result ≡ self.now.events }
    {
        self.events
    }

    /// The length: the greatest of the times.
    pub fn length(&self) -> u32
        ensures { result ≡ self.now.length }
    {
        self.length
    }

    /// The earliest time of an event; nothing where there is no such event.
    pub fn earliest(&self, event: usize) -> Option<u32>
        ensures { result ≡ (if nat_le event self.now.events then Some (earliest_of self.now event) else None) }
    {
        self.earliest[..=self.events].get(event).copied()
    }

    /// The latest time of an event; nothing where there is no such event.
    pub fn latest(&self, event: usize) -> Option<u32>
        ensures { result ≡ (if nat_le event self.now.events then Some (latest_of self.now event) else None) }
    {
        self.latest[..=self.events].get(event).copied()
    }
}
