//! The flat policy: the definitions that every contract cites, the setup, and journals.
//!
//! A setup is built, and asked (a caller in `data_rows`):
//!
//! ```
//! let clusters = [[2, 1000], [2, 400]];
//! let edges = [[0, 1, 8000, 1, 48], [1, 0, 4000, 1, 63]];
//! let groups = [[0, 0, 0, 0, 1, 1], [0, 0, 0, 1, 1, 1]];
//! let built = Setup::build(rt.alloc(), &clusters, &edges, &groups, 64, 1)?;
//! // `setup.prefer(0, Bucket::Ut)` is cluster 1, and `setup.times(1, Bucket::Ini).warp` 4000 microseconds
//! ```
#![tactic(auto)]

pub mod cluster;
pub mod journal;
pub mod lanes;
pub mod laws;
pub mod setup;
pub mod texts;
