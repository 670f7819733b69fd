//! A short text of fixed room.

ghost use Rattle.std.specs.Prelude.{◌≡◌, ◌++◌, [], length};
ghost use Rattle.sheet_forms.specs.Texts.{text_of, joined};

use crate::pieces::Pieces;
use arrayvec::ArrayVec;
use itoa::Buffer;

/// As many bytes as a form can have: 40 of a row's own and 20 for each of its eight numbers.
pub const FORM_BYTES: usize = 200;

/// The bytes of a form.
#[derive(Drop)]
pub struct FormText {
    bytes: ArrayVec<u8, FORM_BYTES>,
}

impl FormText {
    /// A text of no bytes.
    pub(crate) fn blank() -> FormText
        ensures { text_of result ≡ [] }
    {
        FormText {
            bytes: ArrayVec::new(),
        }
    }

    /// The bytes.
    pub fn bytes(&self) -> &[u8]
        ensures { result.now ≡ text_of self.now }
    {
        self.bytes.as_slice()
    }
}

impl Pieces for FormText {
    ghost taken = { λ t. length (text_of t) };

    ghost grows = { λ t xs u. text_of u ≡ text_of t ++ xs };

    ghost joins = { λ a b c xs ys. joined (text_of a) (text_of b) (text_of c) xs ys };

    fn push(&mut self, bytes: &[u8]) {
        self.bytes.try_extend_from_slice(bytes).unwrap();
    }

    fn number(&mut self, n: u64) {
        self.push(Buffer::new().format(n).as_bytes());
    }

    fn days(&mut self, days: i64) {
        self.push(Buffer::new().format(days).as_bytes());
    }
}
