//! The queue of a cluster in nested heaps.
//!
//! A cluster without entries (as in `cluster_rows`):
//!
//! ```
//! let setup = Setup::build(rt.alloc(), &[[1, 1000]], &[], &[[0; 6]], 8, 1)?;
//! let mut cluster = ClusterQueue::new(rt.alloc(), &setup, 0)?;
//! let reserved = cluster.reserve().is_ok();
//! cluster.touch(500);
//! cluster.turn(false, 400); // `cluster.last()` is 500 still
//! cluster.end();
//! ```
//!
//! Entries lie in slots of one arena. A unit is a pairing heap of its entries, an unbound lane a heap of its units, and the
//! unbound threads that prefer a cluster stand in a heap for that cluster, too. No call but `new`, `refresh` and
//! `end` goes over entries, groups or clusters. All moments and times are whole microseconds.
#![tactic(auto)]

mod cluster;
mod heaps;
mod queue;

pub use cluster::ClusterQueue;
pub use flat_policy::cluster::Cluster;
