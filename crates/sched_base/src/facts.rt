//! What is known of a thread, as plain copied data.

use crate::buckets::Bucket;

/// The facts of a thread.
#[derive(Clone, Copy, Debug, PartialEq, Eq)]
pub struct Facts {
    /// The name, which no other thread has.
    pub name: u32,
    /// The group that the thread belongs to.
    pub group: u8,
    /// The bucket of quality of service.
    pub bucket: Bucket,
    /// The base priority, 0 to 127.
    pub base: u8,
    /// The cluster that the thread is bound to, if it is bound.
    pub bound: Option<u8>,
    /// The preferred cluster.
    pub prefer: u8,
    /// The processor time that still counts against the priority, in microseconds.
    pub usage: u32,
    /// The moment up to which the usage has decayed, in microseconds.
    pub seen: u64,
    /// The run span that no group has counted yet, in microseconds.
    pub pending_ran: u32,
    /// The blocked span that no group has counted yet, in microseconds.
    pub pending_blocked: u32,
    /// The work done since the thread was made; a whole processor does one unit in a microsecond.
    pub work: u64,
}
