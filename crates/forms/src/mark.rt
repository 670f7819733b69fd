//! The marks that a text is written with.

ghost use Rattle.std.specs.Prelude.{◌≡◌};
ghost use Rattle.forms.specs.Marks.{mark_of};

/// What a character is to the reader.
#[derive(Clone, Copy, PartialEq, Eq, Debug)]
pub enum Mark {
    Open,
    Close,
    Space,
    Minus,
    Digit,
    Letter,
    Other,
}

/// Tells brackets, the space, the minus, digits and letters apart from all else.
pub fn told_apart(c: char) -> Mark
    ensures { result ≡ mark_of c }
{
    match c {
        '(' => Mark::Open,
        ')' => Mark::Close,
        ' ' => Mark::Space,
        '-' => Mark::Minus,
        '0'..='9' => Mark::Digit,
        'a'..='z' | 'A'..='Z' => Mark::Letter,
        _ => Mark::Other,
    }
}
