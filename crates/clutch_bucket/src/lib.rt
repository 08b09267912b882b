//! The units of one unbound lane: a queue for each group, and which unit goes first.
//!
//! A thread enters its unit, and is picked (a caller in the tests of `lane`):
//!
//! ```
//! lane.enter(&mut arena, slot, 3000, 10_000, &mut turns, &mut steps);
//! assert_eq!(rt; lane.best(&arena), Some(slot));
//! lane.remove(&mut arena, slot, true, &mut turns, &mut steps);
//! ```
//!
//! All times are whole microseconds. Only `LaneUnits::new` and `Ranks::new` take memory.
#![tactic(auto)]

mod lane;
pub mod laws;
mod ranks;
mod repricing;

pub use lane::LaneUnits;
pub use ranks::{Ranks, UnitKey};
pub use repricing::refresh_queue;
