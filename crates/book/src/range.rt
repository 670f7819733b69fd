//! The one test of a number against a range.

ghost use Rattle.std.specs.Prelude.{◌≡◌};
ghost use Rattle.book.specs.Rules.{within};

/// Whether a number is one of 1 to `end`.
pub fn is_within(n: usize, end: usize) -> bool
    ensures { result ≡ within n end }
{
    (1..=end).contains(&n)
}
