//! Tests of the solver on plans whose times are known.

#![tactic(auto)]

#[cfg(test)]
mod activities;
#[cfg(test)]
mod arrows;
#[cfg(test)]
mod known;
