//! Tests of plans: readings at their edges, and issuing again.

#![tactic(auto)]

#[cfg(test)]
mod readings;
