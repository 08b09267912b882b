//! The stable queue of one unit: its slots, the one that goes first, and how many they are.
//!
//! A thread enters a queue (a caller in the tests):
//!
//! ```
//! self.arena.reserve().expect(rt, "room");
//! let slot = self.arena.insert_reserved(Item {
//!     thread: Thread::new(name, 0, Bucket::Fg, 31, None, 0, 0),
//!     pri,
//!     number,
//!     arrival: 0,
//! });
//! self.queue.push_uncounted(&mut self.arena, slot);
//! ```
#![tactic(auto)]

mod item;
pub mod laws;
mod queue;
#[cfg(test)]
mod tests;
mod uncounted;

pub use item::{ForeignKey, Item, ItemKey};
pub use queue::ThreadQueue;
