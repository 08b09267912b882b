//! The timeshare lanes: which of them are filled, and by when each is to be served.
//!
//! Three lanes are filled, and one is served first (a caller in the tests):
//!
//! ```
//! let mut lanes = Lanes::new();
//! lanes.fill(lane(Bucket::Ut, false), 150_000);
//! lanes.fill(lane(Bucket::Ut, true), 150_000);
//! assert_eq!(rt; lanes.earliest(), Some(lane(Bucket::Ut, true)));
//! lanes.fill(lane(Bucket::Df, false), 150_000);
//! assert_eq!(rt; lanes.earliest(), Some(lane(Bucket::Df, false)));
//! ```
//!
//! Deadlines are moments in whole microseconds. No call here takes memory or refuses.
#![tactic(auto)]

pub mod indices;
pub mod lane_set;
pub mod lanes;

pub use bucket_tables::Lane;
pub use indices::{lane_at_index, lane_index};
pub use lane_set::LaneSet;
pub use lanes::Lanes;

#[cfg(test)]
mod tests;
