//! Tables of numbers, the times of version 1, and macros that go through buckets and lanes.
//!
//! A table of numbers, written and read (a caller in the tests):
//!
//! ```
//! let mut table = Table::<MOST_CLUSTERS, 18>::filled(7);
//! table.set(0, 17, 1);
//! table.set_row(3, [9; 18]); // `table.get(3, 17)` is 9 then, and `table.get(2, 17)` still 7
//! ```
//!
//! All times are whole microseconds. No call here takes memory or refuses.
#![tactic(auto)]

mod cases;
pub mod lanes;
pub mod table;
pub mod times;

pub use lanes::{all_buckets, timeshare_lanes};
pub use sched_base::Bucket;
pub use table::Table;
pub use times::{quantum, version_one, warp, wcel};

/// A lane: the threads of a bucket that are bound to a cluster, or those that are not. There are
/// twelve; the ten timeshare lanes are those of all buckets but `Ui`.
#[derive(Clone, Copy, Debug, PartialEq, Eq)]
pub struct Lane {
    pub bucket: Bucket,
    pub bound: bool,
}

#[cfg(test)]
mod tests;
