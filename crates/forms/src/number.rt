//! The number that a word writes: plain decimal, with no leading zero, of one to six digits.

ghost use Rattle.std.specs.Prelude.{◌≡◌};
ghost use Rattle.forms.specs.Reading.{number_of, lag_of};
ghost use Rattle.forms.specs.States.{stepped, made};

use crate::spelled::Spelled;

/// What the bytes of a word make so far.
#[derive(Clone, Copy)]
enum State {
    Start,
    Minus,
    Zero,
    Above(u32),
    Below(u32),
    Bad,
}

// A reader with a state of its own, matched together with each byte, is a form that docs/DECISIONS.md names.
/// Reads a number byte by byte.
#[derive(Drop)]
struct NumberReader {
    state: State,
}

impl NumberReader {
    /// Takes one more byte of the word.
    fn step(&mut self, b: u8)
        ensures { self.new.state ≡ stepped self.old.state b }
    {
        let digit = u32::from(b.saturating_sub(b'0'));
        self.state = match (self.state, char::from(b)) {
            (State::Start, '-') => State::Minus,
            (State::Start, '0') => State::Zero,
            (State::Start, '1'..='9') => State::Above(digit),
            (State::Minus, '1'..='9') => State::Below(digit),
            (State::Above(n), '0'..='9') if n < 100_000 => State::Above(10 * n + digit),
            (State::Below(n), '0'..='9') if n < 100_000 => State::Below(10 * n + digit),
            _ => State::Bad,
        };
    }
}

/// What all the bytes of a word make.
fn state_after(bytes: &[u8]) -> State
    ensures { result ≡ made bytes.now }
{
    let mut reader = NumberReader {
        state: State::Start,
    };
    for b in bytes {
        reader.step(*b);
    }
    reader.state
}

impl Spelled for u32 {
    ghost of_word = { number_of };

    /// The number that a word writes, if it writes one with no sign.
    fn of_word(word: &[u8]) -> Option<u32> {
        match state_after(word) {
            State::Zero => Some(0),
            State::Above(n) => Some(n),
            State::Start | State::Minus | State::Below(_) | State::Bad => None,
        }
    }
}

impl Spelled for usize {
    ghost of_word = { number_of };

    /// The same number, as a place or a node.
    fn of_word(word: &[u8]) -> Option<usize> {
        <u32 as Spelled>::of_word(word).map(|n| n as usize)
    }
}

impl Spelled for i32 {
    ghost of_word = { lag_of };

    /// The lag that a word writes, if it writes one: a number, with a minus where it is below 0.
    fn of_word(word: &[u8]) -> Option<i32> {
        match state_after(word) {
            State::Zero => Some(0),
            State::Above(n) => Some(n as i32),
            State::Below(n) => Some(-(n as i32)),
            State::Start | State::Minus | State::Bad => None,
        }
    }
}
