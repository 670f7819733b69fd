//! Where a rise begins.

ghost use Rattle.std.specs.Prelude.{◌≡◌, ℕ};
ghost use Rattle.solver.specs.Rising.{time_at};

use crate::rise::Rise;

impl Rise {
    /// The times as they stand in a table, and no event raised yet.
    pub(crate) fn from_table(start: [u32; 1024]) -> Rise
        ensures times { result.times ≡ start }
        ensures parents { (e : ℕ) → time_at result.parents e ≡ 0 }
    {
        Rise {
            times: start,
            parents: [0; 1024],
        }
    }

    /// Every event at 0, and none raised yet.
    pub(crate) fn begin() -> Rise
        ensures times { (e : ℕ) → time_at result.times e ≡ 0 }
        ensures parents { (e : ℕ) → time_at result.parents e ≡ 0 }
    {
        Rise::from_table([0; 1024])
    }
}
