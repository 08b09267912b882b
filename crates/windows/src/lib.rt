//! Warps and starvation windows of the timeshare lanes, and the lane that they choose.
//!
//! The foreground passes the background while its warp lasts (a caller in the tests):
//!
//! ```
//! let mut windows = Windows::new(with_warp(8000));
//! windows.fill(BG, 0);
//! windows.fill(FG, 260_000);
//! assert_eq!(rt; select(&rt, &mut windows, 260_000), (FG, Kind::Pass));
//! ```
//!
//! Moments, deadlines and times are whole microseconds. No call here takes memory or refuses.
#![tactic(auto)]

pub mod choice;
pub mod laws;
mod window;

pub use bucket_tables::Lane;
pub use choice::Windows;
pub use flat_policy::lanes::{Kind, Starved, Warp};
pub use flat_policy::setup::Times;

#[cfg(test)]
mod tests;
