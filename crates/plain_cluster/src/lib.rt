//! The queue of a cluster as one list of entries, in the order in which they arrived.
//!
//! A cluster without entries (as in `cluster_rows`):
//!
//! ```
//! let setup = Setup::build(rt.alloc(), &[[1, 1000]], &[], &[[0; 6]], 8, 1)?;
//! let mut cluster = PlainCluster::new(rt.alloc(), &setup, 0)?;
//! let reserved = cluster.reserve().is_ok();
//! cluster.touch(500);
//! cluster.turn(false, 400); // `cluster.last()` is 500 still
//! cluster.end();
//! ```
//!
//! Each call goes over the entries a fixed number of times at the most: `look` once, `refresh` and
//! `take_any` four times, `enter` five times, `pull` six times, `select` eight times and `offer`
//! thirteen times; to close the gap of one that leaves counts as once. All other calls don't. All
//! moments and times are whole microseconds.
#![tactic(auto)]

mod counts;
mod plain;
mod queue;
mod row;
mod rows;
mod scans;
mod units;

pub use flat_policy::cluster::Cluster;
pub use plain::PlainCluster;
