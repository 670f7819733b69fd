//! The spans of the two books' entries.

ghost use Rattle.sheet.specs.Spans.{span_of_entry, span_of_arrow};

use crate::span::{Moves, Span};
use crate::spanned::Spanned;
use activity::entry::{Entry, Running};
use arrow::entry::Arrow;

impl Spanned for Entry {
    ghost span_of = { span_of_entry };

    fn span(&self, _line: usize) -> Option<Span> {
        match self {
            Entry::Activity(a) => {
                let moves = match a.running {
                    Running::Whole => Moves::Both,
                    Running::Broken => Moves::Finish,
                };
                Some(Span::Activity(a.days(), moves))
            }
            Entry::Relation(_) => None,
        }
    }
}

impl Spanned for Arrow {
    ghost span_of = { span_of_arrow };

    fn span(&self, _line: usize) -> Option<Span> {
        Some(Span::Arrow(*self))
    }
}
