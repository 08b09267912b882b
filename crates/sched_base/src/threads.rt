//! A thread, which is moved and never copied.

ghost use Rattle.std.specs.Prelude.{◌≡◌, ◌<◌, ◌≤◌};
ghost use Rattle.sched_base.specs.Facts.{fresh, charged, rested, settled};

use crate::buckets::Bucket;
use crate::facts::Facts;
use crate::limits::{MOMENT_LIMIT, MOST_BASE, MOST_RATE};
use std::marker::Model;

/// A thread. Contracts see its facts. It has no `Clone`, so none is doubled. It has no `Drop`, so
/// code that loses one by accident isn't compiled: whoever ends one calls `into_facts`, or is a
/// type with a `Drop` of its own that does. That no thread is lost is for the contracts of those
/// that hold threads to say.
pub struct Thread {
    facts: Facts,
}

impl Model for Thread {
    ghost use Rattle.std.specs.Prelude.{◌≤◌};
    ghost use Rattle.sched_base.specs.declared.facts.Facts.{Facts};
    ghost use Rattle.sched_base.specs.Limits.{most_base};

    ghost Value = { Facts };

    ghost view = { λ thread. thread.facts };

    ghost invariant = { λ thread. thread.facts.base ≤ most_base };
}

impl Thread {
    /// A fresh thread, made at the moment `now` (microseconds, below 2^40). Usage, pending spans
    /// and work are 0.
    pub fn new(
        name: u32,
        group: u8,
        bucket: Bucket,
        base: u8,
        bound: Option<u8>,
        prefer: u8,
        now: u64,
    ) -> Thread
        requires base { base ≤ MOST_BASE }
        requires now { now < MOMENT_LIMIT }
        ensures { result ≡ fresh name group bucket base bound prefer now }
    {
        Thread {
            facts: Facts {
                name,
                group,
                bucket,
                base,
                bound,
                prefer,
                usage: 0,
                seen: now,
                pending_ran: 0,
                pending_blocked: 0,
                work: 0,
            },
        }
    }

    /// The facts of the thread, whose base is at most 127.
    pub fn facts(&self) -> Facts
        ensures facts { result ≡ self.now }
        ensures base { result.base ≤ MOST_BASE }
    {
        self.facts
    }

    /// The facts of the thread, to be looked at where they lie.
    pub fn as_facts(&self) -> &Facts
        ensures { result.now ≡ self.now }
    {
        &self.facts
    }

    /// Charges `us` microseconds of running at `rate` thousandths of a unit of work for each.
    /// Usage and the pending run span grow by `us`, and the work by `us * rate / 1000`, rounded
    /// down. Each stays at the greatest value of its type where the sum exceeds it.
    pub fn charge(&mut self, us: u32, rate: u32)
        requires { rate ≤ MOST_RATE }
        ensures { self.new ≡ charged us rate self.old }
    {
        let done = us as u64 * rate as u64 / MOST_RATE as u64;
        self.facts.usage = self.facts.usage.saturating_add(us);
        self.facts.pending_ran = self.facts.pending_ran.saturating_add(us);
        self.facts.work = self.facts.work.saturating_add(done);
    }

    /// Adds a blocked span, in microseconds, to the pending blocked span, which stays at the
    /// greatest value of its type where the sum exceeds it.
    pub fn rest(&mut self, span: u64)
        ensures { self.new ≡ rested span self.old }
    {
        let rested = span.saturating_add(self.facts.pending_blocked as u64);
        self.facts.pending_blocked = rested.min(u32::MAX as u64) as u32;
    }

    /// Sets the usage and the moment up to which it has decayed (microseconds), and makes both
    /// pending spans 0.
    pub fn settle(&mut self, usage: u32, seen: u64)
        ensures { self.new ≡ settled usage seen self.old }
    {
        self.facts.usage = usage;
        self.facts.seen = seen;
        self.facts.pending_ran = 0;
        self.facts.pending_blocked = 0;
    }

    /// Ends the thread: what it leaves is its facts. This is how a thread is let go on purpose.
    pub fn into_facts(self) -> Facts
        ensures facts { result ≡ self }
        ensures base { result.base ≤ MOST_BASE }
    {
        let Thread { facts } = self;
        facts
    }
}
