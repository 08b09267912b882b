//! Slots for values of one type, each with two sets of links to other slots.
//!
//! A value goes into a slot, gets links, and is written over (a caller in the tests):
//!
//! ```
//! let mut arena: Arena<u32> = Arena::new(rt.alloc())?;
//! arena.reserve()?;
//! let b = arena.insert_reserved(20);
//! arena.set_links(1, b, chain);
//! assert_eq!(rt; arena.replace(b, 21), 20);
//! ```
#![tactic(auto)]

mod arena;
#[cfg(test)]
mod tests;

pub use arena::{Arena, Links};
