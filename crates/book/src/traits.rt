//! What every book answers.

ghost use Rattle.std.specs.Prelude.{◌≡◌};
ghost use Rattle.book.specs.Rules.{BookMeaning, network_of};
ghost use Rattle.book.specs.Refusals.{told};
ghost use Rattle.book.specs.Calls.{refusal, hears, enter as entering, alter as altering, strike as striking, date as dating, clear as clearing};
ghost use Rattle.book.specs.Past.{InStep};
ghost use Rattle.book.specs.Laws.{LawfulBook};

use crate::date::Date;
use crate::refusal::Refused;
use network::network::Network;

// Each call names its four facts one by one, so that a caller cites the one that it needs: one word for them would hide the
// equations, and the call would still have to be named in it.

/// A network that takes entries on lines, and dates on date places; both are numbered from 1.
/// Every call is answered: carried out, or refused with everything left as it was.
pub trait Book: Network {
    /// What stands on a line.
    type Entry: Copy;

    /// The book's meaning: its rule and its ledger.
    ghost meaning: { Self → BookMeaning Self.Entry };

    /// The number of the last line.
    fn lines(&self) -> usize
        ensures { result ≡ (meaning self.now).rule.lines };

    /// The number of the last date place; 0 where there is none.
    fn dates(&self) -> usize
        ensures { result ≡ (meaning self.now).rule.dates };

    /// What stands on a line; nothing where there is no such line.
    fn line(&self, p: usize) -> Option<Self::Entry>
        ensures { result ≡ (meaning self.now).ledger.line p };

    /// What stands on a date place; nothing where there is no such date place.
    fn date_at(&self, q: usize) -> Option<Date>
        ensures { result ≡ (meaning self.now).ledger.date q };

    /// What `alter` would answer, with nothing altered.
    fn alteration(&self, p: usize, e: Self::Entry) -> Result<(), Refused>
        ensures { told result ≡ refusal (meaning self.now) (altering p e) };

    /// Puts an entry on an empty line.
    fn enter(&mut self, p: usize, e: Self::Entry) -> Result<(), Refused>
        ensures answer { told result ≡ refusal (meaning self.old) (entering p e) }
        ensures after { meaning self.new ≡ hears (meaning self.old) (entering p e) }
        ensures holds { Self.Network.network self.new ≡ network_of (hears (meaning self.old) (entering p e)) }
        ensures past { InStep (meaning self.old) (meaning self.new) (entering p e) };

    /// Puts another entry on a standing line.
    fn alter(&mut self, p: usize, e: Self::Entry) -> Result<(), Refused>
        ensures answer { told result ≡ refusal (meaning self.old) (altering p e) }
        ensures after { meaning self.new ≡ hears (meaning self.old) (altering p e) }
        ensures holds { Self.Network.network self.new ≡ network_of (hears (meaning self.old) (altering p e)) }
        ensures past { InStep (meaning self.old) (meaning self.new) (altering p e) };

    /// Empties a standing line.
    fn strike(&mut self, p: usize) -> Result<(), Refused>
        ensures answer { told result ≡ refusal (meaning self.old) (striking p) }
        ensures after { meaning self.new ≡ hears (meaning self.old) (striking p) }
        ensures holds { Self.Network.network self.new ≡ network_of (hears (meaning self.old) (striking p)) }
        ensures past { InStep (meaning self.old) (meaning self.new) (striking p) };

    /// Fills a date place, or refills it.
    fn date(&mut self, q: usize, d: Date) -> Result<(), Refused>
        ensures answer { told result ≡ refusal (meaning self.old) (dating q d) }
        ensures after { meaning self.new ≡ hears (meaning self.old) (dating q d) }
        ensures holds { Self.Network.network self.new ≡ network_of (hears (meaning self.old) (dating q d)) }
        ensures past { InStep (meaning self.old) (meaning self.new) (dating q d) };

    /// Empties a filled date place.
    fn clear(&mut self, q: usize) -> Result<(), Refused>
        ensures answer { told result ≡ refusal (meaning self.old) (clearing q) }
        ensures after { meaning self.new ≡ hears (meaning self.old) (clearing q) }
        ensures holds { Self.Network.network self.new ≡ network_of (hears (meaning self.old) (clearing q)) }
        ensures past { InStep (meaning self.old) (meaning self.new) (clearing q) };

    /// The book's network is the one that its rule and its ledger make.
    ghost made: { (b : Self) → Self.Network.network b ≡ network_of (meaning b) };

    /// The rule is lawful, nothing stands elsewhere, and what stands asks for bounded gaps.
    ghost keeps: { (b : Self) → LawfulBook (meaning b) };
}
