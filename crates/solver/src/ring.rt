//! A ring of steps whose days add up to more than 0.

ghost use Rattle.std.specs.Prelude.{◌≡◌, ◌≤◌, length};

use network::gap::Step;

mod climb;
mod readings;

/// The steps of a ring, the last first.
// A table of fixed size with its length beside: the engine has no heap.
#[derive(Drop)]
pub struct Ring {
    steps: [Step; 1024],
    count: usize,
    ghost whole: { length steps ≡ 1024 },
    ghost few: { count ≤ 1024 },
}
