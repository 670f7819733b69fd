//! Tests of the books and of date layers over them, at their edges.

#![tactic(auto)]

#[cfg(test)]
mod activities;
#[cfg(test)]
mod arrows;
pub mod cramped;
#[cfg(test)]
mod entries;
#[cfg(test)]
mod gaps;
#[cfg(test)]
mod layers;
