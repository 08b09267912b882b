//! Threads that enter.

ghost use Rattle.std.specs.Prelude.{◌≡◌, ◌≤◌, ◌<◌, ◌+◌, ◌++◌, ◌∷◌, ◌^◌, [], Contains, if◌then◌else◌, is_some, length, map, true};
ghost use Rattle.flat_policy.specs.Policy.Moves.{entered, lanes_filled, new_entry, settled_thread};
ghost use Rattle.flat_policy.specs.Policy.Queue.{LaneState, has_entries, lane_of, order_number, same_lane};
ghost use Rattle.flat_policy.specs.Policy.WellFormed.{WellFormed};
ghost use Rattle.windows.specs.Steps.{EntriesFollowSteps};
ghost use Rattle.cluster_queue.specs.Heaps.{ItemFits};
ghost use Rattle.cluster_queue.specs.Moves.{with_item};
ghost use Rattle.cluster_queue.specs.Queues.{AreTen, IsNested, IsQueue, IsStored, SameSetting, flat_of, slots_of};

use super::Queue;
use crate::heaps::arena_laws;
use bucket_tables::Lane;
use sched_base::limits::{MOMENT_LIMIT, MOST_CLUSTERS, MOST_THREADS};
use sched_base::{Bucket, Facts, Thread, Ticket};
use thread_queue::Item;
use timeshare_decay::{decay, priority};
use windows::laws::{entries_follow_steps, filling_follows};

/// The lane of a thread.
pub fn lane_of(facts: &Facts) -> Lane
    ensures { result ≡ lane_of facts.now }
{
    Lane {
        bucket: facts.bucket,
        bound: facts.bound.is_some(),
    }
}

/// The thread with its usage decayed to a moment, and without pending spans.
fn settled(thread: Thread, now: u64) -> Thread
    ensures { result ≡ settled_thread now thread }
{
    let mut thread = thread;
    let facts = thread.facts();
    thread.settle(decay(facts.usage, facts.seen, now), now);
    thread
}

/// The order number of an arrival, which is below 2^63.
fn order_number(head: bool, arrival: u64) -> i64
    requires { arrival < 2 ^ 62 }
    ensures { result ≡ order_number head arrival }
{
    let number = arrival as i64;
    if head { -1 - number } else { number }
}

impl Queue {
    /// A thread enters, at the head or the tail, at a moment that is not before the last.
    pub fn enter(&mut self, cluster: u8, thread: Thread, head: bool, now: u64) -> Ticket
        requires queue { IsQueue self.old }
        requires spare { 1 ≤ self.old.spare }
        requires few { self.old.len < MOST_THREADS }
        requires group { thread.group < self.old.groups }
        requires prefer { thread.prefer < MOST_CLUSTERS }
        requires moment { now < MOMENT_LIMIT }
        requires arrival { self.old.next_arrival < 2 ^ 62 }
        requires turn { self.old.next_turn < 2 ^ 62 }
        ensures flat { flat_of self.new ≡ entered self.old.windows.times thread head now (flat_of self.old) }
        ensures slots { slots_of self.new ≡ slots_of self.old ++ result.slot ∷ [] }
        ensures spare { self.new.spare + 1 ≡ self.old.spare }
        ensures nested { IsNested self.new }
        ensures setting { SameSetting self.old self.new }
        ensures slot { ¬ Contains (slots_of self.old) result.slot }
        ensures cluster { result.cluster ≡ cluster }
        ensures arrival { result.arrival ≡ self.old.next_arrival }
        ensures pri { result.pri ≡ (new_entry (flat_of self.old) (settled_thread now thread) head).pri }
    {
        enter_laws();
        let facts = thread.facts();
        let thread = settled(thread, now);
        let others = self.heaps.unit_len(&facts);
        let pri = priority(facts.base, facts.bucket, thread.facts().usage, others + 1);
        let arrival = self.next_arrival;
        self.fill_lane(lane_of(&facts), now);
        let item = Item {
            thread,
            pri,
            number: order_number(head, arrival),
            arrival,
        };
        let slot = self.insert(item, facts.pending_ran, facts.pending_blocked, now);
        Ticket {
            cluster,
            slot,
            arrival,
            pri,
        }
    }

    /// A lane that has no entries gets a deadline and loses its starvation window. The lanes of `Ui` have no windows.
    fn fill_lane(&mut self, lane: Lane, now: u64)
        requires nested { IsNested self.old }
        requires ten { AreTen self.old.windows.lanes }
        requires moment { now < MOMENT_LIMIT }
        ensures same { self.new ≡ record self.old { windows = self.new.windows } }
        ensures lanes { self.new.windows.lanes ≡ lanes_filled self.old.windows.times now (flat_of self.old) lane }
        ensures times { self.new.windows.times ≡ self.old.windows.times }
        ensures filled { self.new.windows.filled ≡ map (λ (l : LaneState). if same_lane l.lane lane then true else has_entries (flat_of self.old) l.lane) self.new.windows.lanes }
    {
        filling_follows();
        if self.heaps.has_lane(lane) {
            return;
        }
        match lane.bucket {
            Bucket::Ui => {}
            Bucket::Fg | Bucket::Ini | Bucket::Df | Bucket::Ut | Bucket::Bg => {
                self.windows.fill(lane, now)
            }
        }
    }

    /// An item, whose arrival is the next, comes into the arena and the heaps, with its thread's run span and blocked span
    /// (microseconds). Windows stay.
    fn insert(&mut self, item: Item, ran: u32, blocked: u32, now: u64) -> u32
        requires stored { IsStored self.old }
        requires spare { 1 ≤ self.old.spare }
        requires few { self.old.len < MOST_THREADS }
        requires fits { ItemFits self.old.groups item }
        requires arrival { item.arrival ≡ self.old.next_arrival }
        requires room { self.old.next_arrival < 2 ^ 62 }
        requires turn { self.old.next_turn < 2 ^ 62 }
        ensures flat { flat_of self.new ≡ record (with_item ran blocked item (flat_of self.old)) { last = now; next_arrival = self.old.next_arrival + 1 } }
        ensures slots { slots_of self.new ≡ slots_of self.old ++ result ∷ [] }
        ensures slot { ¬ Contains (slots_of self.old) result }
        ensures spare { self.new.spare + 1 ≡ self.old.spare }
        ensures stored { IsStored self.new }
        ensures windows { self.new.windows ≡ self.old.windows }
        ensures groups { self.new.groups ≡ self.old.groups }
    {
        arena_laws();
        let slot = self.arena.insert_reserved(item);
        self.heaps
            .enter_uncounted(&mut self.arena, slot, ran, blocked, &mut self.next_turn);
        self.next_arrival += 1;
        self.last = now;
        self.len += 1;
        self.spare -= 1;
        slot
    }
}

// Which lanes have entries once a thread enters, as the law says it.
fn enter_laws()
    ensures { EntriesFollowSteps }
{
    entries_follow_steps();
}
