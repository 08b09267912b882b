//! Worked examples of the definitions, as theorems: each definition computes to what the example shows.
#![tactic(auto)]

pub mod examples;
pub mod inputs;
pub mod refused;
pub mod rows;
pub mod whole_runs;
