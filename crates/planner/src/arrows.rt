//! A few activities as an arrow book.

use crate::activities::date;
use crate::call::{Call, play, print_places};
use arrow::ArrowBook;
use arrow::entry::Arrow;
use book::date::Bound;
use dates::layer::Dated;
use std::io;

/// An arrow from one node to another.
fn arrow(from: usize, to: usize, days: u32) -> Arrow {
    Arrow { from, to, days }
}

/// Arrows and dates, with what the book and the layer refuse of them.
fn calls() -> [Call<Arrow>; 8] {
    [
        Call::Enter(1, arrow(1, 2, 3)),
        Call::Enter(2, arrow(2, 3, 5)),
        Call::Enter(3, arrow(2, 201, 1)),
        Call::Enter(3, arrow(2, 2, 1)),
        Call::Alter(2, arrow(2, 3, 4)),
        Call::Date(1, date(3, Bound::Most, 9)),
        Call::Date(64, date(200, Bound::Least, 2)),
        Call::Clear(65),
    ]
}

/// Plays the calls and prints what the book then holds.
pub fn run(rt: &HostRuntime) -> io::Result<()> {
    println!(rt; "an arrow book with a date layer")?;
    let mut dated = Dated::over(ArrowBook::new());
    play(rt, &mut dated, &calls())?;
    println!(rt; "the places that hold a gap")?;
    print_places(rt, &dated)
}
