//! What the scheduler tells of itself: tickets, lines of history and places.

use crate::facts::Facts;
use crate::steps::{Answer, Step};

/// Names one entering of a thread into a cluster's queue.
#[derive(Clone, Copy, Debug, PartialEq, Eq)]
pub struct Ticket {
    /// The cluster that was entered.
    pub cluster: u8,
    /// The slot that the entry stands in.
    pub slot: u32,
    /// The arrival number, which no other entry of the cluster ever has.
    pub arrival: u64,
    /// The priority at the entering, 0 to 127.
    pub pri: u8,
}

/// One line of history: a step, its answer, and the thread that it moved or charged. The thread
/// is as handed in for an entering, as it leaves for a removal, and as charged for a run; the
/// other steps have none.
#[derive(Clone, Copy, Debug, PartialEq, Eq)]
pub struct Entry {
    pub step: Step,
    pub answer: Answer,
    pub thread: Option<Facts>,
}

/// Where a line of history happens: at a cluster, or in the yard of blocked and ended threads.
#[derive(Clone, Copy, Debug, PartialEq, Eq)]
pub enum Spot {
    Cluster(u8),
    Yard,
}
