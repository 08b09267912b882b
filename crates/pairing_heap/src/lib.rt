//! Pairing heaps, after Fredman, Sedgewick, Sleator and Tarjan, whose nodes are slots of an arena.
//!
//! Slots leave a heap in the order of their keys (a caller in the tests):
//!
//! ```
//! assert_eq!(rt; left.peek(), Some(b));
//! left.remove(&mut arena, c, &mut steps);
//! assert_eq!(rt; left.pop(&mut arena, &mut steps), Some(b));
//! ```
#![tactic(auto)]

mod clear;
mod heap;
mod key;
pub mod laws;
mod meld;
mod steps;
#[cfg(test)]
mod tests;
mod walk;

pub use heap::Heap;
pub use key::{Counted, HeapKey, Keyed, Tallied};
pub use steps::Steps;
