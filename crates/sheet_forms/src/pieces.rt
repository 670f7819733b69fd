//! What takes up the pieces of a form, one after another.

ghost use Rattle.std.specs.Prelude.{◌≡◌, ℕ, ◌+◌, ◌≤◌, List, ◌++◌, length, decimal};
ghost use Rattle.std.specs.Fmt.{signed_decimal};

/// Takes up the pieces of a form: to hold their bytes, or only to count them.
pub(crate) trait Pieces: Sized {
    /// How many bytes are taken up.
    ghost taken: { Self → ℕ };

    /// The first becomes the second by taking up these bytes.
    ghost grows: { Self → List ℕ → Self → Type 0 };

    /// Bytes more.
    fn push(&mut self, bytes: &[u8])
        requires { taken self.old + length bytes.now ≤ 200 }
        ensures text { grows self.old bytes.now self.new }
        ensures count { taken self.new ≡ taken self.old + length bytes.now };

    /// A number more, in plain decimal.
    fn number(&mut self, n: u64)
        requires { taken self.old ≤ 180 }
        ensures text { grows self.old (decimal n) self.new }
        ensures few { taken self.new ≤ taken self.old + 20 };

    /// Days more, with a minus where they are negative.
    fn days(&mut self, days: i64)
        requires { taken self.old ≤ 179 }
        ensures text { grows self.old (signed_decimal days) self.new }
        ensures few { taken self.new ≤ taken self.old + 21 };

    /// What grows by some bytes and then by others grows by both.
    ghost joins: { (a b c : Self) (xs ys : List ℕ) → grows a xs b → grows b ys c → grows a (xs ++ ys) c };
}
