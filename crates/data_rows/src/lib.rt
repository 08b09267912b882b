//! The worked rows of plain data, as tests: journals and setups, and the texts of setups, traces and runs.
//!
//! Each was worked out by hand from the formats, as here a line that is read (a line of the tests):
//!
//! ```
//! ("0 15 select", asked(0, 15, Act::Select)),
//! ```
//!
//! All moments and times are whole microseconds.
#![tactic(auto)]

#[cfg(test)]
mod tests;
