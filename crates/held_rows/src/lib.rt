//! The worked rows of held values, as tests: threads are made, queued, blocked, woken and ended, by one thread without locks, by one
//! behind locks, and by three.
//!
//! Each row is played with two programs of 5000 units of work, as here the first of them is made:
//!
//! ```
//! let p = program(3);
//! let done = still.make(0, &p, 0, lines)?;
//! ```
//!
//! All moments are whole microseconds.
#![tactic(auto)]

mod given;

pub use given::{powers, program, programs};

#[cfg(test)]
mod tests;
