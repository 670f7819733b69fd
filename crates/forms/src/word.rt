//! Words in a text.

ghost use Rattle.std.specs.Prelude.{◌≡◌};
ghost use Rattle.std.specs.List.{prefix_len};
ghost use Rattle.forms.specs.Words.{in_word};

use crate::mark::{Mark, told_apart};

// No code reads the place: a word is a part of the input with its place, as docs/DECISIONS.md names it.
/// A word, as a part of the text: the bytes from `place` on.
#[derive(Clone, Copy)]
pub(crate) struct Word<'a> {
    pub(crate) place: usize,
    pub(crate) bytes: &'a [u8],
}

/// Whether a byte can stand in a word: letters, digits and the minus can.
#[tactic(auto, unfolding(crate::specs::Words::in_word))]
fn is_in_word(b: u8) -> bool
    ensures { result ≡ in_word b }
{
    match told_apart(char::from(b)) {
        Mark::Minus | Mark::Digit | Mark::Letter => true,
        Mark::Open | Mark::Close | Mark::Space | Mark::Other => false,
    }
}

/// How long the word is that a text begins with.
pub(crate) fn word_length(text: &[u8]) -> usize
    ensures { result ≡ prefix_len in_word text.now }
{
    text.iter().take_while(|b| is_in_word(**b)).count()
}
