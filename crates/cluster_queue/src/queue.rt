//! The queue of a cluster: its arena, its heaps, and its windows.

ghost use Rattle.std.specs.Prelude.{◌≡◌, ◌≤◌, ◌+◌, [], IfOk, OnErr, OnOk};
ghost use Rattle.flat_policy.specs.Policy.Queue.{empty_flat};
ghost use Rattle.cluster_queue.specs.Queues.{IsNested, IsQueue, SameSetting, flat_of, slots_of};

mod choosing;
mod entering;
mod leaving;
mod offering;
mod refreshing;
mod standing;

use crate::heaps::{Heaps, arena_laws};
use flat_policy::setup::Times;
use link_arena::Arena;
use sched_base::limits::{BUCKET_COUNT, MOST_GROUPS};
use std::alloc::{AllocError, Global};
use thread_queue::Item;
use windows::Windows;

/// The queue of a cluster with so many groups. `len` is how many entries it has, `spare` how many more it takes without memory,
/// `last` the last moment, and `next_arrival` and `next_turn` what is given next.
pub struct Queue {
    pub groups: u8,
    pub arena: Arena<Item>,
    pub heaps: Heaps,
    pub windows: Windows,
    pub len: u32,
    pub spare: u32,
    pub last: u64,
    pub next_arrival: u64,
    pub next_turn: u64,
    pub on: bool,
}

impl Queue {
    /// The empty queue of a cluster with these times by bucket index, which is on.
    pub fn new(alloc: Global, groups: u8, times: [Times; BUCKET_COUNT]) -> Result<Queue, AllocError>
        requires { groups ≤ MOST_GROUPS }
        ensures flat { IfOk result (λ made. flat_of made ≡ empty_flat groups) }
        ensures slots { IfOk result (λ made. slots_of made ≡ []) }
        ensures spare { IfOk result (λ made. made.spare ≡ 0) }
        ensures groups { IfOk result (λ made. made.groups ≡ groups) }
        ensures times { IfOk result (λ made. made.windows.times ≡ times) }
        ensures nested { IfOk result IsNested }
    {
        // An arena can't be let go, so it is made last.
        let heaps = Heaps::new(alloc, groups)?;
        let arena = Arena::new(alloc)?;
        Ok(Queue {
            groups,
            arena,
            heaps,
            windows: Windows::new(times),
            len: 0,
            spare: 0,
            last: 0,
            next_arrival: 0,
            next_turn: 0,
            on: true,
        })
    }

    /// Makes room for one thread. An error changes nothing.
    pub fn reserve(&mut self) -> Result<(), AllocError>
        requires { IsNested self.old }
        ensures flat { OnOk result (flat_of self.new ≡ flat_of self.old) }
        ensures slots { OnOk result (slots_of self.new ≡ slots_of self.old) }
        ensures spare { OnOk result (self.new.spare ≡ self.old.spare + 1) }
        ensures nested { OnOk result (IsNested self.new) }
        ensures setting { OnOk result (SameSetting self.old self.new) }
        ensures err { OnErr result (self.new ≡ self.old) }
    {
        if self.spare + self.len == u32::MAX {
            return Err(AllocError);
        }
        arena_laws();
        self.arena.reserve()?;
        self.spare += 1;
        Ok(())
    }

    /// Ends a queue in which nothing is queued.
    pub fn end(self)
        requires nested { IsNested self }
        requires none { self.len ≡ 0 }
    {
        let Queue {
            groups: _,
            arena,
            heaps: _,
            windows: _,
            len: _,
            spare: _,
            last: _,
            next_arrival: _,
            next_turn: _,
            on: _,
        } = self;
        arena.destroy_empty();
    }
}
