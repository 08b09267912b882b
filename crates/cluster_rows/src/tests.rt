//! Calls of either kind of cluster.

mod clusters;
mod machines;
