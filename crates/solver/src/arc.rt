//! A gap as the solver holds it.

/// A gap of `up` days less `down` days, with the place that holds it.
// The table of arcs is most of what the solver holds on the stack, so an arc is of 16 bytes, none of them unused: a table
// of no arcs is then cleared where it stands.
// `up` and `down` and not one number of days with a sign: all arithmetic on times is of natural numbers.
#[derive(Clone, Copy)]
pub(crate) struct Arc {
    pub place: u32,
    pub left: u16,
    pub reached: u16,
    pub up: u32,
    pub down: u32,
}
