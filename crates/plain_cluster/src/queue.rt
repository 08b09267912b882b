//! The queue of a cluster: its rows, the numbers of its clutch buckets, and its windows.

ghost use Rattle.std.specs.Prelude.{◌≡◌, IfOk, [], length};
ghost use Rattle.flat_policy.specs.Policy.Queue.{empty_flat};
ghost use Rattle.plain_cluster.specs.Queues.{FlagsFollow, flat_of};

mod entering;
mod leaving;
mod offering;
mod picking;
mod refreshing;
mod scanning;

use crate::rows::Rows;
use crate::units::Units;
use flat_policy::setup::Times;
use sched_base::limits::BUCKET_COUNT;
use std::alloc::{AllocError, Global};
use windows::Windows;

/// The queue of a cluster with so many groups. `last` is the last moment, and `next_arrival` what the next thread that
/// enters gets.
pub struct Queue {
    pub groups: u8,
    pub rows: Rows,
    pub units: Units,
    pub windows: Windows,
    pub last: u64,
    pub next_arrival: u64,
    pub on: bool,
}

impl Queue {
    /// The empty queue of a cluster with these times by bucket index, which is on.
    pub fn new(alloc: Global, groups: u8, times: [Times; BUCKET_COUNT]) -> Result<Queue, AllocError>
        ensures flat { IfOk result (λ made. flat_of made ≡ empty_flat groups) }
        ensures groups { IfOk result (λ made. made.groups ≡ groups) }
        ensures rows { IfOk result (λ made. made.rows ≡ record { rows = []; spare = 0 }) }
        ensures times { IfOk result (λ made. made.windows.times ≡ times) }
        ensures flags { IfOk result FlagsFollow }
    {
        let units = Units::new(alloc, groups)?;
        Ok(Queue {
            groups,
            rows: Rows::new(alloc),
            units,
            windows: Windows::new(times),
            last: 0,
            next_arrival: 0,
            on: true,
        })
    }

    /// Ends a queue in which nothing is queued.
    pub fn end(self)
        requires { length self.rows.rows ≡ 0 }
    {
        let Queue {
            groups: _,
            rows,
            units: _,
            windows: _,
            last: _,
            next_arrival: _,
            on: _,
        } = self;
        rows.end();
    }
}
