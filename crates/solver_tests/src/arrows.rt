//! Nine arrows between seven nodes.

use crate::known::check_windows;
use arrow::ArrowBook;
use arrow::entry::Arrow;
use book::traits::Book;
use solver::solve::solve;
use std::test::Fail;

#[test]
fn nine_arrows(rt: HostRuntime) -> Result<(), Fail> {
    let arrows = [
        (1, 2, 3),
        (2, 3, 2),
        (2, 4, 1),
        (2, 5, 5),
        (3, 4, 0),
        (4, 5, 2),
        (4, 6, 2),
        (5, 6, 3),
        (6, 7, 2),
    ];
    let mut book = ArrowBook::new();
    for (line, (from, to, days)) in arrows.iter().enumerate() {
        let _ = book.enter(
            line + 1,
            Arrow {
                from: *from,
                to: *to,
                days: *days,
            },
        );
    }
    let windows = [
        (1, 0, 0),
        (2, 3, 3),
        (3, 5, 6),
        (4, 5, 6),
        (5, 8, 8),
        (6, 11, 11),
        (7, 13, 13),
        (200, 0, 13),
    ];
    check_windows(&rt, &solve(&book), 13, &windows)
}
