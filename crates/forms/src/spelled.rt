//! What a word can spell.

ghost use Rattle.std.specs.Prelude.{◌≡◌, ℕ, List, Option};

/// What is written as one word.
pub(crate) trait Spelled: Sized {
    /// What a word spells, if it spells one.
    ghost of_word: { List ℕ → Option Self };

    /// What a word spells, if it spells one.
    fn of_word(word: &[u8]) -> Option<Self>
        ensures { result ≡ of_word word.now };
}
