//! Entries that come in.

ghost use Rattle.std.specs.Prelude.{◌≡◌, ◌<◌, ◌≤◌, ◌+◌, ◌^◌, ℕ, Some};
ghost use Rattle.flat_policy.specs.Policy.Queue.{Flat};
ghost use Rattle.link_arena.specs.Arena.{IsLive, value_at};
ghost use Rattle.thread_queue.specs.declared.item.Item.{Item as Stored};
ghost use Rattle.clutch_bucket.specs.Lane.{Follows, HasLaneSlot, IsNew, LacksLaneSlot, LaneStands, MayEnter, OnlyQueuesChange, OtherQueuesStayBut, SameGroups, groups, with_unit_entry};
ghost use Rattle.clutch_bucket.specs.Renewing.{AddsSlot};

use super::{LaneUnits, queue_laws};
use link_arena::Arena;
use pairing_heap::Steps;
use std::sync::ledger::Ledger;
use thread_queue::Item;

impl LaneUnits {
    /// A slot, which holds an item and is in no queue, enters the unit of its item's group, with the item's run span and blocked
    /// span (microseconds). The unit takes the turn `turns`, which then rises by one, where it was empty or its priority changes.
    pub fn enter<L: Ledger>(
        &mut self,
        arena: &mut Arena<Item>,
        slot: u32,
        ran: u32,
        blocked: u32,
        turns: &mut u64,
        steps: &mut Steps<L>,
    )
        requires stands { LaneStands arena.old self.old }
        requires live { IsLive arena.old slot }
        requires lacks { LacksLaneSlot arena.old self.old slot }
        requires may { (item : Stored) → value_at arena.old slot ≡ Some item → MayEnter self.old item }
        requires room { self.old.len < 4096 }
        requires turn { turns.old < 2 ^ 63 }
        ensures stands { LaneStands arena.new self.new }
        ensures has { HasLaneSlot arena.new self.new slot }
        ensures follows { (s : Flat) (item : Stored) → value_at arena.old slot ≡ Some item → turns.old ≡ s.next_turn → IsNew s item → Follows arena.old self.old s
            → Follows arena.new self.new (with_unit_entry ran blocked item s) × (turns.new ≡ (with_unit_entry ran blocked item s).next_turn) }
        ensures len { self.new.len ≡ self.old.len + 1 }
        ensures groups { SameGroups self.old self.new }
        ensures arena { OnlyQueuesChange arena.old arena.new }
        ensures queues { OtherQueuesStayBut arena.old arena.new self.old self.new slot }
        ensures turn { turns.old ≤ turns.new }
        ensures turn_most { turns.new ≤ turns.old + 1 }
        ensures ticks { steps.old ≤ steps.new }
    {
        queue_laws();
        let group = arena.get(slot).thread.facts().group;
        self.add_slot(arena, slot, group, ran, blocked, steps);
        self.renew(arena, group, false, turns, steps);
    }

    // A slot comes into the queue of a group, and spans are added to the group's. Its key stays.
    fn add_slot<L: Ledger>(
        &mut self,
        arena: &mut Arena<Item>,
        slot: u32,
        group: u8,
        ran: u32,
        blocked: u32,
        steps: &mut Steps<L>,
    )
        requires stands { LaneStands arena.old self.old }
        requires live { IsLive arena.old slot }
        requires lacks { LacksLaneSlot arena.old self.old slot }
        requires group { group < groups self.old }
        requires room { self.old.len < 4096 }
        ensures adds { AddsSlot arena.old arena.new self.old self.new group slot ran blocked }
        ensures ticks { steps.old ≤ steps.new }
    {
        let stats = &mut self.stats[group as usize];
        stats.add(ran, blocked);
        let queue = &mut self.queues[group as usize];
        queue.push(arena, slot, steps);
        self.len += 1;
    }
}
