//! How many bytes a form has, without writing it.

ghost use Rattle.std.specs.Prelude.{◌≡◌, ◌+◌, ◌≤◌, length, decimal};
ghost use Rattle.sheet_forms.specs.Texts.{counted};

use crate::pieces::Pieces;

/// How many bytes were taken up.
#[derive(Clone, Copy)]
pub(crate) struct Count {
    pub bytes: usize,
}

/// How many digits a number has.
#[tactic(auto, using(crate::proofs::Digits::digits))]
fn figure_count(n: u64) -> usize
    ensures count { result ≡ length (decimal n) }
    ensures few { result ≤ 20 }
{
    match n.checked_ilog10() {
        Some(power) => power as usize + 1,
        None => 1,
    }
}

impl Pieces for Count {
    ghost taken = { λ c. c.bytes };

    ghost grows = { λ c xs d. d.bytes ≡ c.bytes + length xs };

    ghost joins = { λ a b c xs ys. counted a.bytes b.bytes c.bytes xs ys };

    fn push(&mut self, bytes: &[u8]) {
        self.bytes += bytes.len();
    }

    fn number(&mut self, n: u64) {
        self.bytes += figure_count(n);
    }

    fn days(&mut self, days: i64) {
        if days < 0 {
            self.bytes += 1;
        }
        self.number(days.unsigned_abs());
    }
}
