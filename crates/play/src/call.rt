//! The calls that a plan hears.

use book::date::Date;

/// One call of a plan: of an open one, of an issued one, or from one to the other.
#[derive(Clone, Copy)]
pub enum PlanCall<E> {
    Enter(usize, E),
    Alter(usize, E),
    Strike(usize),
    Date(usize, Date),
    Clear(usize),
    Issue,
    Reopen,
    IsSound,
    Earliest(usize),
    Latest(usize),
    Length,
    RingStep(usize),
    /// The sheet, written into the bytes that the list is played with.
    Sheet,
}
