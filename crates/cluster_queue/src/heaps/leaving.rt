//! Slots that go out of the heaps.

ghost use Rattle.std.specs.Prelude.{◌≡◌, ◌<◌, ◌≤◌, ◌^◌};
ghost use Rattle.flat_policy.specs.Laws.Clusters.{EntriesLeaveByPlace};
ghost use Rattle.pairing_heap.specs.Laws.{HeldAreLive};
ghost use Rattle.stealing.specs.Laws.{HasListedSlot, OffersByUnbound, StaysWhereSlotsStay};
ghost use Rattle.thread_queue.specs.Item.{key_of_item, key_precedes};
ghost use Rattle.thread_queue.specs.Laws.{RemovedIsLacked, RemovedStaysApart, StaysWhereOtherSetChanges};
ghost use Rattle.clutch_bucket.specs.Laws.{LanesStand, LanesStay};
ghost use Rattle.cluster_queue.specs.Moves.{CanLeave, Leaves};

use super::Heaps;
use clutch_bucket::laws as lanes;
use flat_policy::laws as policy;
use link_arena::Arena;
use pairing_heap::{Steps, laws as heaps};
use std::sync::ledger::Ledger;
use stealing::laws as foreign;
use thread_queue::{Item, laws as queues};

impl Heaps {
    /// A slot leaves every heap that has it, from anywhere. Where entries of its clutch bucket remain that takes the turn `turns`,
    /// which then rises by one, if the slot was picked or the clutch bucket's priority changes.
    pub fn remove<L: Ledger>(
        &mut self,
        arena: &mut Arena<Item>,
        slot: u32,
        picked: bool,
        turns: &mut u64,
        steps: &mut Steps<L>,
    )
        requires can { CanLeave arena.old self.old slot }
        requires turn { turns.old < 2 ^ 63 }
        ensures leaves { Leaves arena.old arena.new self.old self.new slot picked turns.old turns.new }
        ensures ticks { steps.old ≤ steps.new }
    {
        leave_laws();
        let facts = arena.get(slot).thread.facts();
        let at = facts.bucket.index() as usize;
        if facts.bound.is_some() {
            let queue = &mut self.bound[at];
            queue.remove(arena, slot, steps);
        } else {
            self.foreign.remove(arena, slot, steps);
            let lane = &mut self.lanes[at];
            lane.remove(arena, slot, picked, turns, steps);
        }
    }
}

// What stays where a slot goes out of some heaps, as the laws say it.
fn leave_laws()
    ensures live { HeldAreLive 0 key_of_item key_precedes }
    ensures place { EntriesLeaveByPlace }
    ensures unbound { OffersByUnbound }
    ensures listed { HasListedSlot }
    ensures foreign { StaysWhereSlotsStay }
    ensures gone { RemovedIsLacked }
    ensures apart { RemovedStaysApart }
    ensures queues { StaysWhereOtherSetChanges }
    ensures stand { LanesStand }
    ensures stay { LanesStay }
{
    heaps::held_are_live::<Item, 0>();
    policy::entries_leave_by_place();
    foreign::offers_by_unbound();
    foreign::has_listed_slot();
    foreign::stays_where_slots_stay();
    queues::removed_is_lacked();
    queues::removed_stays_apart();
    queues::stays_where_other_set_changes();
    lanes::lanes_stand();
    lanes::lanes_stay();
}
