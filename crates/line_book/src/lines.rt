//! What one kind of lines says, so that one book serves every kind.

ghost use Rattle.std.specs.Prelude.{◌≡◌, ℕ, None, Option};
ghost use Rattle.std.specs.Result.{result_err};
ghost use Rattle.book.specs.Rules.{Rule};
ghost use Rattle.book.specs.Calls.{put as replacing};
ghost use Rattle.book.specs.Laws.{LawfulRule};
ghost use Rattle.table.specs.Standing.{changed};
ghost use Rattle.line_book.specs.LineBooks.{LinesOnly, InTable};

use book::refusal::Refusal;
use network::gap::{Gap, Owner};

/// 400 lines of one kind of entry, and the rule that such entries go by.
/// Every question has an answer, whatever numbers an entry holds.
pub trait Lines: Sized {
    /// What stands on a line.
    type Entry: Copy;

    /// The rule of a book of these lines.
    ghost rule: { Rule Self.Entry };

    /// What stands on each line.
    ghost standing: { Self → ℕ → Option Self.Entry };

    /// Lines on which nothing stands.
    fn blank() -> Self
        ensures { (p : ℕ) → standing result p ≡ None };

    /// What stands on a line, or nothing; nothing outside 1 to 400.
    fn get(&self, p: usize) -> Option<Self::Entry>
        ensures { result ≡ standing self.now p };

    /// Changes what stands on one line from 1 to 400; elsewhere nothing changes.
    fn put(&mut self, p: usize, stands: Option<Self::Entry>)
        ensures { standing self.new ≡ changed 400 (standing self.old) p stands };

    /// The number of the last event.
    fn events() -> usize
        ensures { result ≡ rule.events };

    /// The number of the last place.
    fn places() -> usize
        ensures { result ≡ rule.places };

    /// The owner of a place; the floor, with number 0, where there is no such place.
    fn owner(place: usize) -> Owner
        ensures { result ≡ rule.owner place };

    /// What an entry on line `p` puts into a place.
    fn gap(p: usize, e: Self::Entry, place: usize) -> Option<Gap>
        ensures { result ≡ rule.line_gap p e place };

    /// The refusal that meets an entry on line `p`, judged as if that line were empty.
    fn judged(&self, p: usize, e: Self::Entry) -> Result<(), Refusal>
        ensures { result_err result ≡ rule.enters (replacing (standing self.now) p None) p e };

    /// Whether what stands on line `p` may be struck.
    fn strikes(&self, p: usize) -> bool
        ensures { result ≡ rule.strikes (standing self.now) p };

    /// Whether what stands on line `p` may be altered to an entry.
    fn alters(&self, p: usize, e: Self::Entry) -> bool
        ensures { result ≡ rule.alters (standing self.now) p e };

    ghost lawful: { LawfulRule rule };

    /// The book has 400 lines, and no date places.
    ghost only: { LinesOnly rule };

    /// Nothing stands outside 1 to 400.
    ghost table: { (l : Self) → InTable (standing l) };
}
