//! The windows of a lane, and how a lane comes to be chosen.

/// How far the warp of a lane is used: the time for which it may pass an earlier deadline.
#[derive(Clone, Copy, Debug, Drop, PartialEq, Eq)]
pub enum Warp {
    /// Not begun.
    Unused,
    /// Begun; it ends at this moment, in microseconds.
    Until(u64),
    /// Used up.
    Spent,
}

/// Whether a lane stands in a starvation window: the time for which a passed lane is served.
#[derive(Clone, Copy, Debug, Drop, PartialEq, Eq)]
pub enum Starved {
    /// It does not.
    No,
    /// Since this moment, in microseconds.
    Since(u64),
}

/// How a timeshare lane came to be chosen.
#[derive(Clone, Copy, Debug, Drop, PartialEq, Eq)]
pub enum Kind {
    /// A higher bucket passed an earlier deadline, by its warp.
    Pass,
    /// The earliest deadline goes first although a higher bucket is queued, whose warp is used up.
    Starve,
    /// The earliest deadline goes first, and no higher bucket is queued.
    Natural,
}
