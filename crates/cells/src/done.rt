//! What a step gives back.
use sched_base::Entry;

/// A step's value, and the line of history that the step made.
#[derive(Drop)]
pub struct Done<T> {
    pub entry: Entry,
    pub value: T,
}
