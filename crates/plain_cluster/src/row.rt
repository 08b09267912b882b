//! One queued thread.

ghost use Rattle.std.specs.Prelude.{◌≡◌, ◌≤◌, ◌&&◌, ◌==◌, int_lt};
ghost use Rattle.flat_policy.specs.Policy.Precedence.{precedes};
ghost use Rattle.flat_policy.specs.Policy.Queue.{in_clutch, in_lane, order_number};
ghost use Rattle.plain_cluster.specs.Entries.{clutch, is_unbound_to};

use bucket_tables::Lane;
use sched_base::limits::MOST_BASE;
use sched_base::{Bucket, Facts, Thread};
use std::marker::Model;

/// A queued thread, its priority, its arrival, whether it entered at the head, and the slot that
/// it lies in. Contracts see the entry as the policy defines it, with the slot. A queued thread has
/// no pending spans.
pub struct Row {
    thread: Thread,
    pri: u8,
    arrival: u64,
    head: bool,
    slot: u32,
}

impl Model for Row {
    ghost use Rattle.std.specs.Prelude.{◌≡◌, ◌≤◌};
    ghost use Rattle.plain_cluster.specs.Entries.{Slotted};

    ghost Value = { Slotted };

    ghost use Rattle.flat_policy.specs.Policy.Queue.{order_number};
    ghost use Rattle.plain_cluster.specs.RowParts.{IsRow};

    ghost view = { λ row. record {
      entry = record {
        facts = row.thread;
        pri = row.pri;
        arrival = row.arrival;
        order = order_number row.head row.arrival;
      };
      slot = row.slot;
    } };

    ghost invariant = { IsRow };
}

impl Row {
    /// A row of a thread that has no pending spans.
    pub fn new(thread: Thread, pri: u8, arrival: u64, head: bool, slot: u32) -> Row
        requires pri { pri ≤ MOST_BASE }
        requires ran { thread.pending_ran ≡ 0 }
        requires blocked { thread.pending_blocked ≡ 0 }
        ensures { result ≡ record {
          entry = record {
            facts = thread;
            pri = pri;
            arrival = arrival;
            order = order_number head arrival;
          };
          slot = slot;
        } }
    {
        Row {
            thread,
            pri,
            arrival,
            head,
            slot,
        }
    }

    /// The facts of the thread.
    pub fn facts(&self) -> Facts
        ensures facts { result ≡ self.now.entry.facts }
        ensures base { result.base ≤ MOST_BASE }
    {
        self.thread.facts()
    }

    /// The priority, at most 127.
    pub fn pri(&self) -> u8
        ensures pri { result ≡ self.now.entry.pri }
        ensures most { result ≤ MOST_BASE }
    {
        self.pri
    }

    /// The slot.
    pub fn slot(&self) -> u32
        ensures { result ≡ self.now.slot }
    {
        self.slot
    }

    /// Whether the entry lies in this slot and has this arrival.
    pub fn is_at(&self, slot: u32, arrival: u64) -> bool
        ensures { result ≡ ((self.now.slot == slot) && (self.now.entry.arrival == arrival)) }
    {
        self.slot == slot && self.arrival == arrival
    }

    /// Whether the thread stands in a lane.
    pub fn in_lane(&self, lane: Lane) -> bool
        ensures { result ≡ in_lane lane self.now.entry }
    {
        let facts = self.facts();
        facts.bucket.index() == lane.bucket.index() && facts.bound.is_some() == lane.bound
    }

    /// Whether the thread is unbound and of this group and bucket.
    pub fn in_clutch(&self, group: u8, bucket: Bucket) -> bool
        ensures { result ≡ in_clutch (clutch group bucket) self.now.entry }
    {
        let facts = self.facts();
        facts.bound.is_none() && facts.group == group && facts.bucket.index() == bucket.index()
    }

    /// Whether the thread is unbound and of this bucket or a higher one.
    pub fn is_unbound_to(&self, bucket: Bucket) -> bool
        ensures { result ≡ is_unbound_to bucket self.now.entry }
    {
        let facts = self.facts();
        facts.bound.is_none() && facts.bucket.index() <= bucket.index()
    }

    /// Whether it entered so that it goes first at one priority: the heads before the tails, the
    /// later head first, and the earlier tail first.
    pub fn is_ahead(&self, other: &Row) -> bool
        ensures { result ≡ int_lt self.now.entry.order other.now.entry.order }
    {
        match (self.head, other.head) {
            (true, true) => other.arrival < self.arrival,
            (true, false) => true,
            (false, true) => false,
            (false, false) => self.arrival < other.arrival,
        }
    }

    /// Whether it goes before another entry of its unit.
    pub fn precedes(&self, other: &Row) -> bool
        ensures { result ≡ precedes self.now.entry other.now.entry }
    {
        other.pri < self.pri || self.pri == other.pri && self.is_ahead(other)
    }

    /// Sets the usage, the moment that it has decayed to, and the priority.
    pub fn reprice(&mut self, usage: u32, seen: u64, pri: u8)
        requires { pri ≤ MOST_BASE }
        ensures { self.new ≡ record self.old {
          entry = record self.old.entry {
            facts = record self.old.entry.facts { usage = usage; seen = seen };
            pri = pri;
          };
        } }
    {
        self.thread.settle(usage, seen);
        self.pri = pri;
    }

    /// The thread, taken out of its row.
    pub fn into_thread(self) -> Thread
        ensures { result ≡ self.entry.facts }
    {
        let Row {
            thread,
            pri: _,
            arrival: _,
            head: _,
            slot: _,
        } = self;
        thread
    }
}
