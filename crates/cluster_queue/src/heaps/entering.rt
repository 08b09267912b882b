//! Slots that come into the heaps.

ghost use Rattle.std.specs.Prelude.{◌≡◌, ◌<◌, ◌≤◌, ◌^◌};
ghost use Rattle.pairing_heap.specs.Laws.{HeldAreLive};
ghost use Rattle.stealing.specs.Laws.{LacksNewArrival, OffersByUnbound, StaysWhereSlotsStay};
ghost use Rattle.thread_queue.specs.Item.{key_of_item, key_precedes};
ghost use Rattle.thread_queue.specs.Laws.{PushedIsHeld, PushedStaysApart, StaysWhereOtherSetChanges};
ghost use Rattle.clutch_bucket.specs.Laws.{LanesStay};
ghost use Rattle.cluster_queue.specs.Moves.{CanEnter, Enters};

use super::Heaps;
use clutch_bucket::laws as lanes;
use link_arena::Arena;
use pairing_heap::{Steps, laws as heaps};
use std::sync::ledger::Ledger;
use stealing::laws as foreign;
use thread_queue::{Item, laws as queues};

impl Heaps {
    /// A slot, which holds an item and is in no heap, enters the unit of its item's thread, with the thread's run span and blocked
    /// span (microseconds), and an unbound one the heap of its thread's preferred cluster, too. Its clutch bucket takes the turn
    /// `turns`, which then rises by one, where it was empty or its priority changes.
    pub fn enter<L: Ledger>(
        &mut self,
        arena: &mut Arena<Item>,
        slot: u32,
        ran: u32,
        blocked: u32,
        turns: &mut u64,
        steps: &mut Steps<L>,
    )
        requires can { CanEnter arena.old self.old slot }
        requires turn { turns.old < 2 ^ 63 }
        ensures enters { Enters arena.old arena.new self.old self.new slot ran blocked turns.old turns.new }
        ensures ticks { steps.old ≤ steps.new }
    {
        enter_laws();
        let facts = arena.get(slot).thread.facts();
        let at = facts.bucket.index() as usize;
        if facts.bound.is_some() {
            let queue = &mut self.bound[at];
            queue.push(arena, slot, steps);
        } else {
            let lane = &mut self.lanes[at];
            lane.enter(arena, slot, ran, blocked, turns, steps);
            self.foreign.push(arena, slot, steps);
        }
    }
}

// What stays where a slot comes into some heaps, as the laws say it.
fn enter_laws()
    ensures unbound { OffersByUnbound }
    ensures lacks { LacksNewArrival }
    ensures foreign { StaysWhereSlotsStay }
    ensures held { PushedIsHeld }
    ensures apart { PushedStaysApart }
    ensures queues { StaysWhereOtherSetChanges }
    ensures live { HeldAreLive 0 key_of_item key_precedes }
    ensures stay { LanesStay }
{
    foreign::offers_by_unbound();
    foreign::lacks_new_arrival();
    foreign::stays_where_slots_stay();
    queues::pushed_is_held();
    queues::pushed_stays_apart();
    queues::stays_where_other_set_changes();
    heaps::held_are_live::<Item, 0>();
    lanes::lanes_stay();
}
