//! Entries that have rows.

ghost use Rattle.std.specs.Prelude.{◌≡◌, ℕ, Option};
ghost use Rattle.sheet.specs.declared.span.Span.{Span};

use crate::span::Span;

/// An entry that may have a row of its own.
pub trait Spanned {
    /// What the row of the entry on a line is for; nothing where it has none.
    ghost span_of: { Self → ℕ → Option Span };

    /// The span of the entry on a line.
    fn span(&self, line: usize) -> Option<Span>
        ensures { result ≡ span_of self.now line };
}
