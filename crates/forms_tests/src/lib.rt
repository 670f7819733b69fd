//! Tests of the reader of forms: each form, and what is no form.

#![tactic(auto)]

#[cfg(test)]
mod readings;
