//! The steps of a ring, in their order.

ghost use Rattle.std.specs.Prelude.{◌≡◌, ◌-◌, ◌&&◌, leb, length, if◌then◌else◌, Some, None, nat_le, slice_index_or};
ghost use Rattle.solver.specs.RingSteps.{ring_steps, floor_to};

use crate::ring::Ring;
use network::gap::Step;

impl Ring {
    /// How many steps the ring has.
    pub fn steps(&self) -> usize
        ensures { result ≡ length (ring_steps self.now) }
    {
        self.count
    }

    /// A step, numbered from 1; nothing where there is no such step.
    pub fn step(&self, n: usize) -> Option<Step>
        ensures { result ≡ (if leb 1 n && nat_le n (length (ring_steps self.now)) then Some (slice_index_or (ring_steps self.now) (n - 1) (floor_to 0)) else None) }
    {
        if (1..=self.count).contains(&n) {
            Some(self.steps[self.count - n])
        } else {
            None
        }
    }
}
