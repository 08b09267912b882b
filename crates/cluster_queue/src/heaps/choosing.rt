//! What the heaps have, and which of their slots go first.

ghost use Rattle.std.specs.Prelude.{◌≡◌, ◌<◌, ◌≤◌, ◌&&◌, ℕ, IfNone, IfSome, count_by, false, is_some, length, nat_le};
ghost use Rattle.bound_buckets.specs.Tops.{top_of};
ghost use Rattle.flat_policy.specs.Policy.Offer.{is_unbound, offered_foreign};
ghost use Rattle.flat_policy.specs.Policy.Precedence.{precedes_in_lane};
ghost use Rattle.flat_policy.specs.Policy.Queue.{Flat, Queued, has_entries, lane_entries, unit_entries};
ghost use Rattle.flat_policy.specs.Policy.Unpreceded.{unpreceded};
ghost use Rattle.link_arena.specs.Arena.{Arena as Map, IsLive};
ghost use Rattle.sched_base.specs.Bucket.{index};
ghost use Rattle.thread_queue.specs.declared.item.Item.{Item as Stored};
ghost use Rattle.bound_buckets.specs.Units.{TopsAreOfUnits};
ghost use Rattle.flat_policy.specs.Laws.Offers.{OffersAreOne};
ghost use Rattle.flat_policy.specs.Laws.Picks.{PrecedesOrders};
ghost use Rattle.flat_policy.specs.Laws.Units.{FilledLaneHasFirstClutch, FirstHasGreatestPriority, FirstOfBoundLane};
ghost use Rattle.pairing_heap.specs.Laws.{HeldAreLive};
ghost use Rattle.thread_queue.specs.Item.{foreign_key_of_item, foreign_precedes, key_of_item, key_precedes};
ghost use Rattle.thread_queue.specs.Laws.{FirstIsChosen};
ghost use Rattle.cluster_queue.specs.Heaps.{AreSix, HeapsFollow};
ghost use Rattle.cluster_queue.specs.Moves.{CanRead, HasGroup, entry_in};

use super::Heaps;
use bound_buckets::{bound_score, laws as tops};
use bucket_tables::Lane;
use flat_policy::laws as policy;
use link_arena::Arena;
use pairing_heap::laws as heaps;
use sched_base::limits::MOST_CLUSTERS;
use sched_base::{Bucket, Facts};
use thread_queue::{Item, laws as queues};

impl Heaps {
    /// Whether a lane has entries.
    pub fn has_lane(&self, lane: Lane) -> bool
        requires { AreSix self.now }
        ensures { (arena : Map Stored) (count : ℕ) (s : Flat) → HeapsFollow arena self.now count s → result ≡ has_entries s lane }
    {
        self.lane_len(lane) != 0
    }

    /// How many entries a lane has.
    fn lane_len(&self, lane: Lane) -> u32
        requires { AreSix self.now }
        ensures { (arena : Map Stored) (count : ℕ) (s : Flat) → HeapsFollow arena self.now count s → result ≡ length (lane_entries s lane) }
    {
        let at = lane.bucket.index() as usize;
        if lane.bound {
            self.bound[at].len()
        } else {
            self.lanes[at].len()
        }
    }

    /// How many entries the unit of a thread has.
    pub fn unit_len(&self, facts: &Facts) -> u32
        requires { HasGroup self.now facts.now.group }
        ensures { (arena : Map Stored) (count : ℕ) (s : Flat) → HeapsFollow arena self.now count s → result ≡ length (unit_entries s facts.now) }
    {
        let at = facts.bucket.index() as usize;
        if facts.bound.is_some() {
            self.bound[at].len()
        } else {
            self.lanes[at].unit_len(facts.group)
        }
    }

    /// How many unbound entries the buckets down to this one have.
    pub fn count_unbound(&self, b: Bucket) -> u32
        requires { AreSix self.now }
        ensures count { (arena : Map Stored) (count : ℕ) (s : Flat) → HeapsFollow arena self.now count s
            → result ≡ count_by (λ (e : Queued). is_unbound e.facts && nat_le (index e.facts.bucket) (index b)) s.entries }
        ensures most { result ≤ 24576 }
    {
        let mut count = 0;
        for at in 0..b.index() as usize + 1 {
            count += self.lanes[at].len();
        }
        count
    }

    /// The slot of the first entry of a lane; `None` where the lane has no entries.
    pub fn first_of(&self, arena: &Arena<Item>, lane: Lane) -> Option<u32>
        requires { CanRead arena.now self.now }
        ensures first { (can : CanRead arena.now self.now) → entry_in arena.now result ≡ unpreceded (precedes_in_lane can.s) (lane_entries can.s lane) }
        ensures live { IfSome result (λ slot. IsLive arena.now slot) }
        ensures none { IfNone result ((can : CanRead arena.now self.now) → has_entries can.s lane ≡ false) }
    {
        choice_laws();
        let at = lane.bucket.index() as usize;
        if lane.bound {
            self.bound[at].first()
        } else {
            self.lanes[at].best(arena)
        }
    }

    /// The slot of the first entry of those that prefer cluster `to`; `None` where there is none.
    pub fn first_foreign(&self, arena: &Arena<Item>, to: u8) -> Option<u32>
        requires can { CanRead arena.now self.now }
        requires cluster { to < MOST_CLUSTERS }
        ensures first { (can : CanRead arena.now self.now) → entry_in arena.now result ≡ offered_foreign to can.s }
        ensures live { IfSome result (λ slot. IsLive arena.now slot) }
    {
        choice_laws();
        let _items = arena;
        self.foreign.best(to)
    }

    /// The greatest unit priority of a lane; `None` where it has no entries.
    pub fn top(&self, arena: &Arena<Item>, lane: Lane) -> Option<u8>
        requires { CanRead arena.now self.now }
        ensures { (can : CanRead arena.now self.now) → result ≡ top_of can.s lane }
    {
        choice_laws();
        let at = lane.bucket.index() as usize;
        if !lane.bound {
            return self.lanes[at].top();
        }
        let slot = self.bound[at].first()?;
        Some(arena.get(slot).pri + bound_score(lane.bucket))
    }
}

// What goes first, as the laws say it.
fn choice_laws()
    ensures live { HeldAreLive 0 key_of_item key_precedes }
    ensures foreign { HeldAreLive 1 foreign_key_of_item foreign_precedes }
    ensures chosen { FirstIsChosen }
    ensures orders { PrecedesOrders }
    ensures bound { FirstOfBoundLane }
    ensures offers { OffersAreOne }
    ensures clutch { FilledLaneHasFirstClutch }
    ensures greatest { FirstHasGreatestPriority }
    ensures tops { TopsAreOfUnits }
{
    heaps::held_are_live::<Item, 0>();
    heaps::held_are_live::<Item, 1>();
    queues::first_is_chosen();
    policy::precedes_orders();
    policy::first_of_bound_lane();
    policy::offers_are_one();
    policy::filled_lane_has_first_clutch();
    policy::first_has_greatest_priority();
    tops::tops_are_of_units();
}
