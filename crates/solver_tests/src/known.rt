//! Times that are known beforehand.

use solver::ring::Ring;
use solver::times::Times;
use std::process::Abort;
use std::test::Fail;

/// The length, and for each event named its earliest and its latest time.
pub(crate) fn check_windows(
    rt: &impl Abort,
    solution: &Result<Times, Ring>,
    length: u32,
    windows: &[(usize, u32, u32)],
) -> Result<(), Fail> {
    let Ok(times) = solution else {
        return Err(Fail::new("contradictory"));
    };
    assert_eq!(rt; times.length(), length);
    for (event, earliest, latest) in windows {
        assert_eq!(rt; times.earliest(*event), Some(*earliest));
        assert_eq!(rt; times.latest(*event), Some(*latest));
    }
    Ok(())
}
