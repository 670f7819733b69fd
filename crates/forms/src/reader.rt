//! The reader of a text.

ghost use Rattle.std.specs.Prelude.{◌≡◌, IfSome};
ghost use Rattle.std.specs.Option.{option_map};
ghost use Rattle.forms.specs.Reading.{word_as};
ghost use Rattle.forms.specs.Steps.{Passes, Takes};
ghost use Rattle.forms.specs.Texts.{left, Ends, Reads, Stays, Shrinks, Apart};
ghost use Rattle.forms.specs.Words.{word_before};

use crate::form::Form;
use crate::spelled::Spelled;
use crate::word::{Word, word_length};

/// What stands next in a text is no form.
#[derive(Clone, Copy, PartialEq, Eq, Debug)]
pub struct NoForm;

// The text stays whole beside the place: a word tells its place, and the clauses speak of what is left from there.
/// Reads a text form by form.
#[derive(Drop)]
pub struct Reader<'a> {
    text: &'a [u8],
    at: usize,
}

impl<'a> Reader<'a> {
    /// A reader at the start of a text.
    pub fn new(text: &'a [u8]) -> Reader<'a>
        ensures text { result.text.now ≡ text.now }
        ensures start { result.at ≡ 0 }
    {
        Reader { text, at: 0 }
    }

    /// Reads one form, and stops after it: nothing at the end of the text. An error reads nothing.
    pub fn next(&mut self) -> Result<Option<Form>, NoForm>
        ensures ends { Ends (left self.old) result }
        ensures reads { Reads (left self.old) (left self.new) result }
        ensures stays { Stays self.old.at self.new.at result }
        ensures shrinks { Shrinks (left self.old) (left self.new) result }
        ensures text { self.new.text ≡ self.old.text }
        ensures apart { Apart }
    {
        if self.at >= self.text.len() {
            return Ok(None);
        }
        let mut ahead = Reader {
            text: self.text,
            at: self.at,
        };
        let form = ahead.form().ok_or(NoForm)?;
        self.at = ahead.at;
        Ok(Some(form))
    }

    /// Goes past the byte `b`, if it stands here.
    pub(crate) fn byte(&mut self, b: u8) -> Option<()>
        ensures { Passes b self.old self.new result }
    {
        if self.at < self.text.len() && self.text[self.at] == b {
            self.at += 1;
            Some(())
        } else {
            None
        }
    }

    /// The longest word from here on, if the byte `b` follows it. Goes past both.
    fn word_before(&mut self, b: u8) -> Option<Word<'a>>
        ensures text { self.new.text ≡ self.old.text }
        ensures word { option_map (λ w. (w.bytes.now, self.new.at)) result ≡ word_before self.old.text.now self.old.at b }
        ensures place { IfSome result (λ w. w.place ≡ self.old.at) }
    {
        let place = self.at;
        let rest = self.text.get(place..)?;
        let length = word_length(rest);
        self.at += length;
        self.byte(b)?;
        let bytes = &rest[..length];
        Some(Word { place, bytes })
    }

    /// What the word before the byte `b` spells.
    pub(crate) fn word<T: Spelled>(&mut self, b: u8) -> Option<T>
        ensures { Takes (λ t at. word_as T.of_word t at b) self.old self.new result }
    {
        let word = self.word_before(b)?;
        T::of_word(word.bytes)
    }
}
