//! The steps that actors take, and what they are answered.

use crate::buckets::Bucket;

/// What an actor does. A hand is what the actor holds: a thread or nothing.
#[derive(Clone, Copy, Debug, PartialEq, Eq)]
pub enum Act {
    /// Makes a thread into the hand.
    Make {
        name: u32,
        group: u8,
        bucket: Bucket,
        base: u8,
        bound: Option<u8>,
    },
    /// Puts the hand's thread into the queue of a cluster, at its head or its tail.
    Enter {
        cluster: u8,
        head: bool,
    },
    /// Takes the thread that the home cluster picks.
    Select,
    /// Takes the thread that another cluster offers.
    Offer {
        cluster: u8,
    },
    /// Takes a named thread out of the home's queue.
    Pull {
        name: u32,
    },
    /// Reads the load of a cluster.
    Look {
        cluster: u8,
    },
    /// Asks for the cluster that the hand's thread should enter.
    Aim,
    /// Charges the hand's thread for running, in microseconds.
    Ran {
        us: u32,
    },
    /// Blocks the hand's thread.
    Sleep,
    /// Takes a blocked thread.
    Wake {
        name: u32,
    },
    /// Ends the hand's thread.
    End,
    /// Asks how many threads are blocked.
    Blocked,
    /// Renews the priorities of the home's queue.
    Refresh,
    /// Turns a cluster off.
    Off {
        cluster: u8,
    },
    /// Turns a cluster on.
    On {
        cluster: u8,
    },
}

/// One step: an actor does something at a moment (microseconds).
#[derive(Clone, Copy, Debug, PartialEq, Eq)]
pub struct Step {
    pub moment: u64,
    pub actor: u8,
    pub act: Act,
}

/// Where a name stands.
#[derive(Clone, Copy, Debug, PartialEq, Eq)]
pub enum Place {
    /// In the queue of a cluster.
    Queue(u8),
    /// In the hand of an actor.
    Hand(u8),
    /// Among the blocked threads.
    Blocked,
    /// Among the ended threads.
    Ended,
    /// Nowhere, since no thread of that name was made.
    Nowhere,
}

/// What a step is answered.
#[derive(Clone, Copy, Debug, PartialEq, Eq)]
pub enum Answer {
    /// Done.
    Yes,
    /// The priority of a thread that entered, 0 to 127.
    Pri(u8),
    /// The name of a thread that was taken.
    Got(u32),
    /// There is no thread to take.
    Empty,
    /// The cluster is off.
    Off,
    /// The load of a cluster, in microseconds for each processor.
    Load(u32),
    /// The cluster to enter.
    To(u8),
    /// How many priorities a refresh changed.
    New(u32),
    /// How many threads are blocked.
    Left(u32),
    /// The work that a thread has done since it was made.
    Work(u64),
    /// Refused: the hand holds a thread.
    HandFull,
    /// Refused: the hand holds nothing.
    HandEmpty,
    /// Refused: the name was made before.
    NameUsed,
    /// Refused: as many threads live as the setup allows.
    NoRoom,
    /// Refused: the name isn't blocked but here.
    NotBlocked(Place),
    /// Refused: the name doesn't stand in the home's queue but here.
    NotQueued(Place),
    /// Refused: the named cluster is the actor's home.
    OwnCluster,
    /// Refused: the thread may not enter that cluster.
    NotAllowed,
    /// Refused: this cluster, which the aim needs, wasn't looked at.
    LookFirst(u8),
}
