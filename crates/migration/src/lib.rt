//! What an actor saw of the clusters, and the cluster that a thread should enter.
//!
//! Both loads are noted, and then the aim is there (a caller in the tests):
//!
//! ```
//! let mut looks = Looks::new();
//! let t = facts(None, 0);
//! assert_eq!(rt; looks.aim(&edges, &t), first(0));
//! looks.note(0, 20_000);
//! looks.note(1, 0);
//! assert_eq!(rt; looks.aim(&edges, &t), Ok(aim)); // cluster 1 where the edge weighs less than 20000
//! ```
//!
//! All times are whole microseconds. No call here takes memory.
#![tactic(auto)]

pub mod laws;
mod looks;

pub use looks::Looks;
use thiserror::Error;

/// A cluster has to be looked at before an aim.
#[derive(Clone, Copy, Debug, PartialEq, Eq, Error)]
#[error("cluster {cluster} has to be looked at first")]
pub struct LookFirst {
    /// The cluster, counted from 0.
    pub cluster: u8,
}

#[cfg(test)]
mod tests;
