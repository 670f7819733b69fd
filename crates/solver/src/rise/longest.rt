//! The greatest of a table of times.

ghost use Rattle.std.specs.Prelude.{◌≡◌, ◌≤◌};
ghost use Rattle.network.specs.Schedules.{greatest};
ghost use Rattle.solver.specs.Rising.{time_at};

/// The greatest of the times of events 0 to `events`.
pub(crate) fn longest(times: &[u32; 1024], events: usize) -> u32
    requires { events ≤ 1023 }
    ensures { result ≡ greatest (time_at times.now) events }
{
    times[..=events].iter().copied().max().unwrap_or(0)
}
