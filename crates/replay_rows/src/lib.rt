//! The worked rows: short traces whose answers were worked out by hand from the rules, each replayed
//! as a test, from bytes to bytes.
//!
//! All moments and times are whole microseconds.
#![tactic(auto)]

mod answered;

pub use answered::is_answered;

#[cfg(test)]
mod tests;
