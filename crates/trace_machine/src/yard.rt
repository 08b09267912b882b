//! The yard: the blocked threads, and how many threads live.

ghost use Rattle.std.specs.Prelude.{◌≡◌, ◌≤◌, ◌<◌, ◌+◌, ◌-◌, ◌^◌, IfOk, None, Some, ℕ};
ghost use Rattle.link_arena.specs.Arena.{IsLive, Inserts, Removes, live_count, value_at};
ghost use Rattle.sched_base.specs.Facts.{rested};
ghost use Rattle.trace_machine.specs.declared.yard.Resting.{Resting};

use link_arena::Arena;
use sched_base::Thread;
use sched_base::limits::MOMENT_LIMIT;
use std::alloc::{AllocError, Global};
use std::marker::Model;

/// A blocked thread, and when it went to sleep.
pub struct Resting {
    pub thread: Thread,
    pub since: u64,
}

/// The blocked threads, each in a slot of its own, how many threads live, and the last moment.
pub struct Yard {
    sleepers: Arena<Resting>,
    live: u32,
    last: u64,
}

impl Model for Yard {
    ghost use Rattle.trace_machine.specs.Yards.{YardView};

    ghost Value = { YardView };

    ghost use Rattle.std.specs.Prelude.{◌≡◌, ℕ};
    ghost use Rattle.link_arena.specs.Arena.{links_at, unlinked};

    ghost view = { λ y. record { sleepers = y.sleepers; live = y.live; last = y.last } };

    ghost invariant = { λ y. (k : ℕ) (slot : ℕ) → links_at y.sleepers k slot ≡ unlinked };
}

impl Yard {
    /// An empty yard with room for so many blocked threads.
    pub fn new(alloc: Global, threads: u32) -> Result<Yard, AllocError>
        ensures room { IfOk result (λ made. threads ≤ made.sleepers.spare) }
        ensures none { IfOk result (λ made. (slot : ℕ) → value_at made.sleepers slot ≡ None) }
        ensures count { IfOk result (λ made. live_count made.sleepers ≡ 0) }
        ensures live { IfOk result (λ made. made.live ≡ 0) }
        ensures last { IfOk result (λ made. made.last ≡ 0) }
    {
        let mut sleepers = Arena::new(alloc)?;
        for _ in 0..threads {
            if sleepers.reserve().is_err() {
                sleepers.destroy_empty();
                return Err(AllocError);
            }
        }
        Ok(Yard {
            sleepers,
            live: 0,
            last: 0,
        })
    }

    /// How many threads live.
    pub fn live(&self) -> u32
        ensures { result ≡ self.now.live }
    {
        self.live
    }

    /// The last moment.
    pub fn last(&self) -> u64
        ensures { result ≡ self.now.last }
    {
        self.last
    }

    /// How many threads are blocked.
    pub fn blocked(&self) -> u32
        requires { live_count self.now.sleepers < 2 ^ 32 }
        ensures { result ≡ live_count self.now.sleepers }
    {
        self.sleepers.len() as u32
    }

    /// One thread more lives, from a moment on.
    pub fn make(&mut self, now: u64)
        requires { self.old.live < 2 ^ 31 }
        ensures { self.new ≡ record self.old { live = self.old.live + 1; last = now } }
    {
        self.live += 1;
        self.last = now;
    }

    /// One thread fewer lives, from a moment on.
    pub fn end_one(&mut self, now: u64)
        requires { 0 < self.old.live }
        ensures { self.new ≡ record self.old { live = self.old.live - 1; last = now } }
    {
        self.live -= 1;
        self.last = now;
    }

    /// Sets the last moment alone.
    pub fn touch(&mut self, now: u64)
        ensures { self.new ≡ record self.old { last = now } }
    {
        self.last = now;
    }

    /// A thread goes to sleep in a slot.
    pub fn sleep(&mut self, t: Thread, now: u64) -> u32
        requires { 0 < self.old.sleepers.spare }
        ensures inserts { Inserts self.old.sleepers self.new.sleepers result (record { thread = t; since = now }) }
        ensures spare { self.new.sleepers.spare + 1 ≡ self.old.sleepers.spare }
        ensures count { live_count self.new.sleepers ≡ live_count self.old.sleepers + 1 }
        ensures live { self.new.live ≡ self.old.live }
        ensures last { self.new.last ≡ now }
    {
        self.last = now;
        self.sleepers.insert_reserved(Resting {
            thread: t,
            since: now,
        })
    }

    /// The thread of a slot wakes: the span since it went to sleep is to be counted.
    pub fn wake(&mut self, slot: u32, now: u64) -> Thread
        requires { IsLive self.old.sleepers slot }
        ensures woken { (w : Resting) → value_at self.old.sleepers slot ≡ Some w → result ≡ rested (now - w.since) w.thread }
        ensures removes { Removes self.old.sleepers self.new.sleepers slot }
        ensures spare { self.new.sleepers.spare ≡ self.old.sleepers.spare + 1 }
        ensures count { live_count self.new.sleepers + 1 ≡ live_count self.old.sleepers }
        ensures live { self.new.live ≡ self.old.live }
        ensures last { self.new.last ≡ now }
    {
        let Resting { mut thread, since } = self.sleepers.remove(slot);
        thread.rest(now.saturating_sub(since));
        self.last = now;
        thread
    }

    /// Ends the yard and every blocked thread.
    pub fn end(self) {
        let Yard {
            mut sleepers,
            live: _,
            last: _,
        } = self;
        let mut from = 0;
        while let Some(slot) = sleepers.next_live(from) {
            let Resting { thread, since: _ } = sleepers.remove(slot);
            thread.into_facts();
            from = slot;
        }
        sleepers.destroy_empty();
    }
}
