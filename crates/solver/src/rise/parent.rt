//! The arc that last raised an event.

ghost use Rattle.std.specs.Prelude.{◌≡◌, ◌+◌, ◌<◌, MatchOption};
ghost use Rattle.solver.specs.Rising.{time_at};

use crate::rise::Rise;

impl Rise {
    /// The index of the arc that last raised an event; nothing where none has raised it.
    pub(crate) fn parent(&self, event: usize) -> Option<usize>
        requires { event < 1024 }
        ensures { MatchOption result (time_at self.now.parents event ≡ 0) (λ k. time_at self.now.parents event ≡ k + 1) }
    {
        usize::from(self.parents[event]).checked_sub(1)
    }
}
