//! Copies the gaps of a network.

ghost use Rattle.std.specs.Prelude.{◌≡◌, ℕ, ◌<◌, ◌≤◌, length, IfSome, pos, negsuc, ◌+ℤ◌, ◌≤ℤ◌};
ghost use Rattle.solver.specs.Arcs.{SameGap, arc_at};
ghost use Rattle.solver.specs.Copies.{GatheredFrom};
ghost use Rattle.network.specs.Meanings.{Bounded};

use crate::arc::Arc;
use crate::arcs::Arcs;
use network::gap::Gap;
use network::network::Network;

/// The days of a gap as days up and days down, one of them 0.
fn parts(days: i64) -> (u32, u32)
    requires above { negsuc 99998 ≤ℤ days }
    requires below { days ≤ℤ pos 99999 }
    ensures same { pos result.0 ≡ pos result.1 +ℤ days }
    ensures up { result.0 ≤ 99999 }
    ensures down { result.1 ≤ 99999 }
{
    if days >= 0 {
        (days as u32, 0)
    } else {
        (0, (-days) as u32)
    }
}

/// A bounded gap as an arc.
fn arc_of(place: usize, gap: Gap) -> Arc
    requires place { place ≤ 4096 }
    requires left { gap.left ≤ 1023 }
    requires reached { gap.reached ≤ 1023 }
    requires above { negsuc 99998 ≤ℤ gap.days }
    requires below { gap.days ≤ℤ pos 99999 }
    ensures there { result.place ≡ place }
    ensures same { (events : ℕ) → Bounded events gap → SameGap events result gap }
{
    let (up, down) = parts(gap.days);
    Arc {
        place: place as u32,
        left: gap.left as u16,
        reached: gap.reached as u16,
        up,
        down,
    }
}

impl Arcs {
    /// No arcs, between events 0 to `events`.
    pub(crate) fn none(events: usize) -> Arcs
        requires { events ≤ 1023 }
        ensures count { result.count ≡ 0 }
        ensures events { result.events ≡ events }
    {
        Arcs {
            arcs: [Arc {
                place: 0,
                left: 0,
                reached: 0,
                up: 0,
                down: 0,
            }; 4096],
            count: 0,
            events,
        }
    }

    /// The arcs.
    pub(crate) fn all(&self) -> &[Arc]
        ensures long { length result.now ≡ self.now.count }
        ensures each { (k : ℕ) → k < self.now.count → arc_at result.now k ≡ arc_at self.now.arcs k }
    {
        &self.arcs[..self.count]
    }

    /// An arc; nothing where there are not so many.
    pub(crate) fn get(&self, k: usize) -> Option<Arc>
        ensures { IfSome result (λ a. (k < self.now.count) × (arc_at self.now.arcs k ≡ a)) }
    {
        self.all().get(k).copied()
    }

    /// Takes up the standing gaps of a network, in the order of their places. The table is large, so it is filled where
    /// it stands, and not returned.
    pub(crate) fn take<N: Network>(&mut self, network: &N)
        requires count { self.old.count ≡ 0 }
        requires events { self.old.events ≡ (N.Network.network network.now).events }
        ensures { GatheredFrom (N.Network.network network.now) self.new }
    {
        for place in 1..=network.places() {
            if let Some(gap) = network.gap(place) {
                self.arcs[self.count] = arc_of(place, gap);
                self.count += 1;
            }
        }
    }
}
