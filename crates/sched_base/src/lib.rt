//! The plain data of the scheduler: buckets, threads, steps and answers.
//!
//! A thread runs, and what it used is counted (a caller in the tests):
//!
//! ```
//! let mut thread = Thread::new(7, 1, Bucket::Fg, 31, Some(2), 2, 500);
//! thread.charge(2500, 400);
//! thread.charge(1, 999);
//! thread.rest(70);
//! let facts = thread.facts(); // `facts.usage` is 2501, and `facts.pending_blocked` is 70
//! ```
//!
//! All times are whole microseconds. No call here takes memory or refuses.
#![tactic(auto)]

pub mod buckets;
pub mod facts;
pub mod history;
pub mod laws;
pub mod limits;
pub mod steps;
pub mod threads;

pub use buckets::Bucket;
pub use facts::Facts;
pub use history::{Entry, Spot, Ticket};
pub use steps::{Act, Answer, Place, Step};
pub use threads::Thread;

#[cfg(test)]
mod tests;
