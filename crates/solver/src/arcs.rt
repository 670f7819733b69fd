//! The standing gaps of a network, copied once into a dense table.

ghost use Rattle.std.specs.Prelude.{◌≡◌, ℕ, ◌<◌, ◌≤◌, length};
ghost use Rattle.solver.specs.Arcs.{arc_at};

use crate::arc::Arc;

mod gather;

/// The standing gaps, from 0 to `count`, between events 0 to `events`.
// A table of fixed size with its length beside: the engine has no heap, and the table is filled where it stands.
#[derive(Drop)]
pub(crate) struct Arcs {
    pub arcs: [Arc; 4096],
    pub count: usize,
    pub events: usize,
    ghost whole: { length arcs ≡ 4096 },
    ghost few: { count ≤ 4096 },
    ghost small: { events ≤ 1023 },
    ghost lefts: { (k : ℕ) → k < count → (arc_at arcs k).left ≤ events },
    ghost ends: { (k : ℕ) → k < count → (arc_at arcs k).reached ≤ events },
    ghost ups: { (k : ℕ) → k < count → (arc_at arcs k).up ≤ 99999 },
    ghost downs: { (k : ℕ) → k < count → (arc_at arcs k).down ≤ 99999 },
}
