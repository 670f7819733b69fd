//! The promise whole, over a run.

ghost use Rattle.std.specs.Prelude.{◌≡◌};
ghost use Rattle.book.specs.Rules.{network_of};
ghost use Rattle.plan.specs.Issues.{Right};
ghost use Rattle.play.specs.Asked.{AllAsked};
ghost use Rattle.play.specs.Played.{hears_all, LedTo, RightAfterAll};

use crate::call::PlanCall;
use crate::stage::Stage;
use book::traits::Book;
use plan::issued::IssuedPlan;
use plan::open::OpenPlan;
use sheet::spanned::Spanned;

/// Carries out a list of calls on a plan over a book, each or refused, and issues it at the end. A call that the plan
/// lacks in its state first reopens or issues it, so that every call is heard. Each sheet that is asked for is written into
/// the caller's bytes, where it fits.
pub fn play<B: Book>(book: B, calls: &[PlanCall<B::Entry>], bytes: &mut [u8]) -> IssuedPlan<B>
where
    B::Entry: Spanned,
    ensures after { B.Book.meaning result.book ≡ hears_all (B.Book.meaning book) calls.now }
    ensures right { Right (network_of (hears_all (B.Book.meaning book) calls.now)) result.outcome }
    ensures past { LedTo (B.Book.meaning book) (B.Book.meaning result.book) calls.now }
    ensures heard { RightAfterAll (B.Book.meaning book) calls.now result.outcome }
    ensures sheets { AllAsked B.Entry.Spanned.span_of (B.Book.meaning book) calls.now bytes.old bytes.new }
{
    let mut stage = Stage::Open(OpenPlan::over(book));
    for call in calls {
        stage = stage.heard(*call, bytes);
    }
    stage.issued()
}
