//! Whether an entry stands in a slot, and moments.

ghost use Rattle.std.specs.Prelude.{◌≡◌, Bool, IfNone, IfSome, Some, false, is_some};
ghost use Rattle.sched_base.specs.declared.buckets.Bucket.{Bucket};
ghost use Rattle.flat_policy.specs.Policy.Clusters.{standing_among};
ghost use Rattle.flat_policy.specs.Policy.ClusterSteps.{touched};
ghost use Rattle.flat_policy.specs.Policy.Queue.{Queued, has_entries, lane};
ghost use Rattle.link_arena.specs.Arena.{IsLive};
ghost use Rattle.cluster_queue.specs.Queues.{HoldsEntry, IsQueue, IsSomeSlot, StaysWith, flat_of, slots_of};

use super::Queue;
use bucket_tables::{Lane, each_bucket};
use sched_base::Bucket;

impl Queue {
    /// Whether the entry of an arrival stands in a slot.
    pub fn stands_at(&self, slot: u32, arrival: u64) -> bool
        requires { IsQueue self.now }
        ensures there { result ≡ is_some (standing_among slot arrival (flat_of self.now).entries (slots_of self.now)) }
        ensures holds { (e : Queued) → standing_among slot arrival (flat_of self.now).entries (slots_of self.now) ≡ Some e → HoldsEntry self.now slot e }
    {
        self.arena.is_live(slot) && self.arena.get(slot).arrival == arrival
    }

    /// Some slot of an entry; `None` exactly where nothing is queued.
    pub fn some_slot(&self) -> Option<u32>
        requires { IsQueue self.now }
        ensures { IsSomeSlot self.now result }
    {
        self.first_slot()
    }

    /// The slot of the first entry of the first lane that has entries; `None` where no lane has any.
    fn first_slot(&self) -> Option<u32>
        requires { IsQueue self.now }
        ensures live { IfSome result (λ slot. IsLive self.now.arena slot) }
        ensures none { IfNone result ((b : Bucket) (bound : Bool) → has_entries (flat_of self.now) (lane b bound) ≡ false) }
    {
        each_bucket!(bucket => {
            let slot = self.first_in(bucket);
            if slot.is_some() {
                return slot;
            }
        });
        None
    }

    /// The slot of the first entry of a lane of a bucket; `None` where neither has entries.
    fn first_in(&self, bucket: Bucket) -> Option<u32>
        requires { IsQueue self.now }
        ensures live { IfSome result (λ slot. IsLive self.now.arena slot) }
        ensures none { IfNone result ((bound : Bool) → has_entries (flat_of self.now) (lane bucket bound) ≡ false) }
    {
        let unbound = self.first_of(bucket, false);
        if unbound.is_some() {
            return unbound;
        }
        self.first_of(bucket, true)
    }

    /// The slot of the first entry of a lane; `None` where it has no entries.
    fn first_of(&self, bucket: Bucket, bound: bool) -> Option<u32>
        requires { IsQueue self.now }
        ensures live { IfSome result (λ slot. IsLive self.now.arena slot) }
        ensures none { IfNone result (has_entries (flat_of self.now) (lane bucket bound) ≡ false) }
    {
        self.heaps.first_of(&self.arena, Lane { bucket, bound })
    }

    /// Sets the last moment, and nothing else.
    pub fn touch(&mut self, now: u64)
        requires { IsQueue self.old }
        ensures stays { StaysWith self.old self.new (touched now (flat_of self.old)) }
        ensures same { self.new ≡ record self.old { last = now } }
    {
        self.last = now;
    }

    /// Turns the queue on or off, and sets the last moment.
    pub fn turn(&mut self, on: bool, now: u64)
        requires { IsQueue self.old }
        ensures stays { StaysWith self.old self.new (record (flat_of self.old) { on = on; last = now }) }
    {
        self.last = now;
        self.on = on;
    }
}
