//! The worked examples of clusters, as tests: one cluster of either kind by itself, and a machine over it.
//!
//! A cluster without entries, whichever its kind is (lines of the tests):
//!
//! ```
//! let mut cluster = K::new(alloc, &setup, 0)?;
//! let reserved = cluster.reserve().is_ok();
//! cluster.touch(500);
//! ```
//!
//! All moments and times are whole microseconds.
#![tactic(auto)]

#[cfg(test)]
mod tests;
