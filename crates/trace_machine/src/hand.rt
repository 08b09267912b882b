//! An actor's hand.

use migration::Looks;
use sched_base::Thread;

/// What an actor holds, its looks since then, and its last moment.
pub struct HeldHand {
    pub thread: Option<Thread>,
    pub looks: Looks,
    pub last: u64,
}
