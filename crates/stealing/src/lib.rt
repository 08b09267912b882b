//! The heaps of foreign threads: who goes first among those that prefer another cluster.
//!
//! A thread comes into the heap of the cluster that it prefers, and the one that goes first leaves it (lines of the tests):
//!
//! ```
//! let slot = arena.insert_reserved(item_of(row)); // an unbound thread that prefers cluster `row.prefer`
//! foreign.push(arena, slot, steps);
//! let slot = foreign.best(to)?; // the slot that goes first of those that prefer cluster `to`
//! foreign.remove(arena, slot, steps);
//! ```
//!
//! No call here takes memory.
#![tactic(auto)]

mod foreign;
pub mod laws;
#[cfg(test)]
mod tests;

pub use foreign::Foreign;
