//! What a lock protects keeps its history: a cluster's queue lies behind a lock with the journal of what happened there, and
//! its type keeps that the journal is a legal run which leads to that queue.
//!
//! A value behind a lock is known by its type alone. So a type, `N: RunName`, names the run: its setup, its programs, its powers
//! and its desks. Rights pay for room: a thread's slot right is parked where the thread is queued, and a line right ends with the
//! line that it pays, so that no step takes memory and none is refused. `Lines` carries line rights of all places.
//!
//! A thread is made while there are no locks, enters behind one, and all ends once there are none again (lines of the tests):
//!
//! ```
//! let done = still.make(0, p, 0, lines)?;
//! let floor = still.start();
//! floor.enter(rt, &NoGate, 0, 0, rider, 0, lines);
//! Ok(floor.still().close())
//! ```
//!
//! `HeldCluster` is one cluster and `HeldYard` the yard. `Still` has all of a run without locks, and `Floor` each behind a lock of its
//! own. All moments are whole microseconds. The calls that answer `AllocError` take memory; no step does, and none is refused.
#![tactic(auto)]

mod cluster_locks;
mod clusters;
mod desk_set;
mod done;
mod floor;
mod frame;
mod held_cluster;
mod held_yard;
mod lines;
mod pack;
mod rider;
mod run_name;
mod still;

pub use desk_set::DeskSet;
pub use done::Done;
pub use floor::Floor;
pub use held_cluster::HeldCluster;
pub use held_yard::HeldYard;
pub use lines::Lines;
pub use rider::{Rider, Slots};
pub use run_name::RunName;
pub use still::{Closed, Still};
