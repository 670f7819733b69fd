//! Nine arrows between seven nodes.

use crate::show::print_plan;
use arrow::ArrowBook;
use arrow::entry::Arrow;
use play::call::PlanCall;
use play::play::play;
use std::io;

/// The entering of an arrow on a line.
fn enter(line: usize, from: usize, to: usize, days: u32) -> PlanCall<Arrow> {
    PlanCall::Enter(line, Arrow { from, to, days })
}

/// Prints the plan of the nine arrows.
pub fn run(rt: &HostRuntime) -> io::Result<()> {
    println!(rt; "nine arrows")?;
    let calls = [
        enter(1, 1, 2, 3),
        enter(2, 2, 3, 2),
        enter(3, 2, 4, 1),
        enter(4, 2, 5, 5),
        enter(5, 3, 4, 0),
        enter(6, 4, 5, 2),
        enter(7, 4, 6, 2),
        enter(8, 5, 6, 3),
        enter(9, 6, 7, 2),
    ];
    print_plan(rt, &play(ArrowBook::new(), &calls, &mut []))
}
