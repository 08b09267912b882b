//! Threads that enter.

ghost use Rattle.std.specs.Prelude.{◌≡◌, ◌≤◌, ◌<◌, ◌+◌, ◌++◌, ◌∷◌, ◌^◌, [], Contains, if◌then◌else◌, is_some, length, map, slice_index_or, slice_set, true};
ghost use Rattle.flat_policy.specs.Policy.Moves.{entered, lanes_filled, new_entry, settled_thread, turn_on_entering};
ghost use Rattle.flat_policy.specs.Policy.Queue.{LaneState, clutch_of, clutch_place, has_entries, lane_of, no_spans, order_number, same_lane};
ghost use Rattle.flat_policy.specs.Policy.Usage.{with_spans};
ghost use Rattle.plain_cluster.specs.Entries.{clutch, slots_of};
ghost use Rattle.plain_cluster.specs.Queues.{AreTen, FlagsFollow, IsQueue, flat_of};

use super::Queue;
use super::scanning::lane_of;
use bucket_tables::Lane;
use sched_base::limits::{MOMENT_LIMIT, MOST_BASE, MOST_THREADS};
use sched_base::{Bucket, Facts, Thread, Ticket};
use timeshare_decay::{decay, priority};
use windows::laws::filling_follows;

/// The thread with its usage decayed to a moment, and without pending spans.
fn settled(thread: Thread, now: u64) -> Thread
    ensures { result ≡ settled_thread now thread }
{
    let mut thread = thread;
    let facts = thread.facts();
    thread.settle(decay(facts.usage, facts.seen, now), now);
    thread
}

impl Queue {
    /// A thread enters, at the head or the tail, at a moment that is not before the last.
    pub fn enter(&mut self, cluster: u8, thread: Thread, head: bool, now: u64) -> Ticket
        requires queue { IsQueue self.old.groups self.old }
        requires spare { 1 ≤ self.old.rows.spare }
        requires few { length self.old.rows.rows < MOST_THREADS }
        requires group { thread.group < self.old.groups }
        requires moment { now < MOMENT_LIMIT }
        requires arrival { self.old.next_arrival < 2 ^ 62 }
        requires turn { self.old.units.next_turn < 2 ^ 62 }
        ensures flat { flat_of self.new ≡ entered self.old.windows.times thread head now (flat_of self.old) }
        ensures slots { slots_of self.new.rows.rows ≡ slots_of self.old.rows.rows ++ result.slot ∷ [] }
        ensures spare { self.new.rows.spare + 1 ≡ self.old.rows.spare }
        ensures flags { FlagsFollow self.new }
        ensures times { self.new.windows.times ≡ self.old.windows.times }
        ensures groups { self.new.groups ≡ self.old.groups }
        ensures slot { ¬ Contains (slots_of self.old.rows.rows) result.slot }
        ensures cluster { result.cluster ≡ cluster }
        ensures arrival { result.arrival ≡ self.old.next_arrival }
        ensures pri { result.pri ≡ (new_entry (flat_of self.old) (settled_thread now thread) head).pri }
    {
        let facts = thread.facts();
        let thread = settled(thread, now);
        let usage = thread.facts().usage;
        let others = self.unit_len(&facts) as u32;
        let pri = priority(facts.base, facts.bucket, usage, others + 1);
        let arrival = self.next_arrival;
        self.fill_lane(lane_of(&facts), now);
        let slot = if facts.bound.is_some() {
            self.push(thread, pri, head, now)
        } else {
            self.push_unbound(&facts, thread, pri, head, now)
        };
        Ticket {
            cluster,
            slot,
            arrival,
            pri,
        }
    }

    /// A lane that has no entries gets a deadline and loses its starvation window.
    fn fill_lane(&mut self, lane: Lane, now: u64)
        requires ten { AreTen self.old.windows.lanes }
        requires flags { FlagsFollow self.old }
        requires moment { now < MOMENT_LIMIT }
        ensures same { self.new ≡ record self.old { windows = self.new.windows } }
        ensures lanes { self.new.windows.lanes ≡ lanes_filled self.old.windows.times now (flat_of self.old) lane }
        ensures times { self.new.windows.times ≡ self.old.windows.times }
        ensures filled { self.new.windows.filled ≡ map (λ (l : LaneState). if same_lane l.lane lane then true else has_entries (flat_of self.old) l.lane) self.new.windows.lanes }
    {
        filling_follows();
        if self.has_lane(lane) {
            return;
        }
        match lane.bucket {
            Bucket::Ui => {}
            Bucket::Fg | Bucket::Ini | Bucket::Df | Bucket::Ut | Bucket::Bg => {
                self.windows.fill(lane, now)
            }
        }
    }

    /// The last row is that of a thread, which takes the next arrival.
    fn push(&mut self, thread: Thread, pri: u8, head: bool, now: u64) -> u32
        requires spare { 1 ≤ self.old.rows.spare }
        requires pri { pri ≤ MOST_BASE }
        requires ran { thread.pending_ran ≡ 0 }
        requires blocked { thread.pending_blocked ≡ 0 }
        requires arrival { self.old.next_arrival < 2 ^ 62 }
        ensures queue { self.new ≡ record self.old {
          rows = self.new.rows;
          last = now;
          next_arrival = self.old.next_arrival + 1;
        } }
        ensures rows { self.new.rows.rows ≡ self.old.rows.rows ++ record {
          entry = record {
            facts = thread;
            pri = pri;
            arrival = self.old.next_arrival;
            order = order_number head self.old.next_arrival;
          };
          slot = result;
        } ∷ [] }
        ensures spare { self.new.rows.spare + 1 ≡ self.old.rows.spare }
        ensures slot { ¬ Contains (slots_of self.old.rows.rows) result }
    {
        let slot = self.rows.push(thread, pri, self.next_arrival, head);
        self.next_arrival += 1;
        self.last = now;
        slot
    }

    /// The same for an unbound thread, whose pending spans were these: its clutch bucket counts
    /// them, and takes the next turn where it was empty or has another priority than before.
    fn push_unbound(&mut self, facts: &Facts, thread: Thread, pri: u8, head: bool, now: u64) -> u32
        requires spare { 1 ≤ self.old.rows.spare }
        requires pri { pri ≤ MOST_BASE }
        requires ran { thread.pending_ran ≡ 0 }
        requires blocked { thread.pending_blocked ≡ 0 }
        requires arrival { self.old.next_arrival < 2 ^ 62 }
        requires turn { self.old.units.next_turn < 2 ^ 62 }
        requires place { clutch_place (clutch_of facts.now) < length self.old.units.spans }
        ensures flat { flat_of self.new ≡ turn_on_entering (flat_of self.old) (clutch_of facts.now) (record (flat_of self.old) {
          entries = (flat_of self.old).entries ++ record {
            facts = thread;
            pri = pri;
            arrival = self.old.next_arrival;
            order = order_number head self.old.next_arrival;
          } ∷ [];
          spans = slice_set self.old.units.spans (clutch_place (clutch_of facts.now))
              (with_spans (slice_index_or self.old.units.spans (clutch_place (clutch_of facts.now)) no_spans) facts.now.pending_ran facts.now.pending_blocked);
          last = now;
          next_arrival = self.old.next_arrival + 1;
        }) }
        ensures rows { self.new.rows.rows ≡ self.old.rows.rows ++ record {
          entry = record {
            facts = thread;
            pri = pri;
            arrival = self.old.next_arrival;
            order = order_number head self.old.next_arrival;
          };
          slot = result;
        } ∷ [] }
        ensures spare { self.new.rows.spare + 1 ≡ self.old.rows.spare }
        ensures slot { ¬ Contains (slots_of self.old.rows.rows) result }
        ensures windows { self.new.windows ≡ self.old.windows }
        ensures groups { self.new.groups ≡ self.old.groups }
    {
        let (group, bucket) = (facts.group, facts.bucket);
        let was_empty = !self.has_clutch(group, bucket);
        let before = self.clutch_priority(group, bucket);
        self.units
            .add(group, bucket, facts.pending_ran, facts.pending_blocked);
        let slot = self.push(thread, pri, head, now);
        if was_empty || before != self.clutch_priority(group, bucket) {
            self.units.take_turn(group, bucket);
        }
        slot
    }
}
