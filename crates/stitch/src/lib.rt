//! One history out of many: journals and logs put together into one list of lines.
//!
//! Journals of the clusters and logs of the actors become one history (a caller in the tests):
//!
//! ```
//! let history = stitch(alloc, journals, logs)?;
//! Ok(Some(listed(alloc, &history)?))
//! ```
//!
//! Memory is taken for the answer alone.
#![tactic(auto)]

mod homes;
mod lines;
mod stops;
mod taken;
mod weaving;

use flat_policy::journal::Line;
use sched_base::Spot;
use std::alloc::AllocError;
use thiserror::Error;
pub use weaving::stitch;

/// Where lists that have no interleaving part: the taking stops, since no actor's next line can be
/// taken.
#[derive(Clone, Copy, Debug, PartialEq, Eq)]
pub struct Astray {
    /// The first spot with a line of its journal left, the clusters before the yard. Where no
    /// journal has one, the spot of `there`.
    pub spot: Spot,
    /// How many lines of that spot's journal were taken; 0 where no such journal is given.
    pub index: u64,
    /// The next line of that journal, or `None` where all journals are used up.
    pub here: Option<Line>,
    /// The actor of `here`, or where all journals are used up the first one with a line left.
    pub actor: u8,
    /// The next line of that actor, or `None` where it has none left or no log.
    pub there: Option<Line>,
}

/// Why journals and logs are not put together.
#[derive(Clone, Copy, Debug, PartialEq, Eq, Error)]
pub enum StitchError {
    /// They have no interleaving.
    #[error("the journals and logs have no interleaving")]
    Astray(Astray),
    /// Want of memory.
    #[error("out of memory")]
    Memory,
}

impl From<AllocError> for StitchError {
    ghost use Rattle.std.specs.Prelude.{◌≡◌};
    ghost use Rattle.stitch.specs.declared.StitchError.TheVariants.{Memory};

    ghost from_gives = { λ _ e. e ≡ Memory };

    fn from(_error: AllocError) -> StitchError {
        StitchError::Memory
    }
}

#[cfg(test)]
mod tests;
