//! The machine: every cluster's queue, every actor's hand, and the yard, as one policy.
//!
//! A machine over one kind of cluster, and a step that the setup fits (a caller in `cluster_rows`):
//!
//! ```
//! let setup = Setup::build(rt.alloc(), &[[1, 1000]], &[], &[[0; 6]], 8, 1)?;
//! let mut machine: Machine<PlainCluster> = Machine::new(rt.alloc(), setup)?;
//! let made = asked(&mut machine, make); // `Some(Answer::Yes)`, by `machine.step(&step)` where the setup fits it
//! machine.end();
//! ```
//!
//! All moments and times are whole microseconds.
#![tactic(auto)]

mod hand;
pub mod laws;
mod machine;
mod names;
mod parts;
mod yard;

pub use machine::Machine;
use sched_base::Answer;

/// The reply to a step: its effective moment, in microseconds, and its answer.
#[derive(Clone, Copy, Debug, PartialEq, Eq)]
pub struct Reply {
    pub moment: u64,
    pub answer: Answer,
}
