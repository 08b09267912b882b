//! The entries of one bucket, priced anew.

ghost use Rattle.std.specs.Prelude.{◌≡◌, ◌≢◌, ◌<◌, ◌≤◌, ◌+◌, ◌-◌, ◌^◌, vec_capacity};
ghost use Rattle.sched_base.specs.declared.Bucket.TheVariants.{Ui};
ghost use Rattle.pairing_heap.specs.Laws.{HeldAreLive};
ghost use Rattle.stealing.specs.Laws.{LacksWhereNone, StaysWhereSlotsStay};
ghost use Rattle.thread_queue.specs.Item.{key_of_item, key_precedes};
ghost use Rattle.clutch_bucket.specs.Laws.{BoundLanesArePriced, LanesStay};
ghost use Rattle.cluster_queue.specs.Refreshing.{CanPrice, PricesBucket};

use super::Heaps;
use clutch_bucket::{laws as lanes, refresh_queue};
use link_arena::Arena;
use pairing_heap::{Steps, laws as heaps};
use sched_base::Bucket;
use std::sync::ledger::Ledger;
use stealing::laws as foreign;
use thread_queue::Item;

impl Heaps {
    /// Prices the entries of a bucket anew, whose clutch buckets take their turns. Tells how many priorities changed.
    pub fn refresh_bucket<L: Ledger>(
        &mut self,
        arena: &mut Arena<Item>,
        bucket: Bucket,
        now: u64,
        turns: &mut u64,
        steps: &mut Steps<L>,
    ) -> u32
        requires can { CanPrice arena.old self.old bucket now }
        requires bucket { bucket ≢ Ui }
        requires turn { turns.old < 2 ^ 63 - 64 }
        ensures prices { PricesBucket arena.old arena.new self.old self.new bucket now turns.old turns.new result }
        ensures most { result ≤ 8192 }
        ensures room { vec_capacity self.new.slots ≡ vec_capacity self.old.slots }
        ensures turn_most { turns.new ≤ turns.old + 64 }
        ensures ticks { steps.old ≤ steps.new }
    {
        price_laws();
        let at = bucket.index() as usize;
        let lane = &mut self.lanes[at];
        let unbound = lane.refresh(arena, now, turns, steps);
        let queue = &mut self.bound[at];
        let bound = refresh_queue(queue, arena, now, &mut self.slots, steps);
        unbound + bound
    }
}

// What stays where other slots are priced anew, and what a bound lane priced anew holds, as the laws say it.
fn price_laws()
    ensures live { HeldAreLive 0 key_of_item key_precedes }
    ensures bound { BoundLanesArePriced }
    ensures none { LacksWhereNone }
    ensures foreign { StaysWhereSlotsStay }
    ensures stay { LanesStay }
{
    heaps::held_are_live::<Item, 0>();
    lanes::bound_lanes_are_priced();
    foreign::lacks_where_none();
    foreign::stays_where_slots_stay();
    lanes::lanes_stay();
}
