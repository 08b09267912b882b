//! Entries that go out.

ghost use Rattle.std.specs.Prelude.{◌≡◌, ◌<◌, ◌≤◌, ◌+◌, ◌^◌, ℕ, Some};
ghost use Rattle.flat_policy.specs.Policy.Queue.{Flat};
ghost use Rattle.flat_policy.specs.Policy.WellFormed.{WellFormed};
ghost use Rattle.link_arena.specs.Arena.{links_at, unlinked, value_at};
ghost use Rattle.thread_queue.specs.Queue.{HasSlot};
ghost use Rattle.thread_queue.specs.declared.item.Item.{Item as Stored};
ghost use Rattle.clutch_bucket.specs.Lane.{Follows, HasLaneSlot, LacksLaneSlot, LaneStands, OnlyQueuesChange, OtherQueuesStay, SameGroups, groups, queue_at, without_unit_entry};
ghost use Rattle.clutch_bucket.specs.Renewing.{TakesSlot};

use super::{LaneUnits, queue_laws};
use link_arena::Arena;
use pairing_heap::Steps;
use std::sync::ledger::Ledger;
use thread_queue::Item;

impl LaneUnits {
    /// A slot of the lane leaves its unit, from anywhere; its links of set 0 lead nowhere then. Where entries remain the unit takes
    /// the turn `turns`, which then rises by one, if the slot was picked or the unit's priority changes.
    pub fn remove<L: Ledger>(
        &mut self,
        arena: &mut Arena<Item>,
        slot: u32,
        picked: bool,
        turns: &mut u64,
        steps: &mut Steps<L>,
    )
        requires stands { LaneStands arena.old self.old }
        requires has { HasLaneSlot arena.old self.old slot }
        requires turn { turns.old < 2 ^ 63 }
        ensures stands { LaneStands arena.new self.new }
        ensures lacks { LacksLaneSlot arena.new self.new slot }
        ensures free { links_at arena.new 0 slot ≡ unlinked }
        ensures follows { (s : Flat) (item : Stored) → value_at arena.old slot ≡ Some item → turns.old ≡ s.next_turn → WellFormed (groups self.old) s → Follows arena.old self.old s
            → Follows arena.new self.new (without_unit_entry picked item s) × (turns.new ≡ (without_unit_entry picked item s).next_turn) }
        ensures len { self.new.len + 1 ≡ self.old.len }
        ensures groups { SameGroups self.old self.new }
        ensures arena { OnlyQueuesChange arena.old arena.new }
        ensures queues { OtherQueuesStay arena.old arena.new self.old self.new }
        ensures turn { turns.old ≤ turns.new }
        ensures turn_most { turns.new ≤ turns.old + 1 }
        ensures ticks { steps.old ≤ steps.new }
    {
        queue_laws();
        let group = arena.get(slot).thread.facts().group;
        self.take_slot(arena, slot, group, steps);
        self.renew(arena, group, picked, turns, steps);
    }

    // A slot goes out of the queue of a group. Its key stays.
    fn take_slot<L: Ledger>(
        &mut self,
        arena: &mut Arena<Item>,
        slot: u32,
        group: u8,
        steps: &mut Steps<L>,
    )
        requires stands { LaneStands arena.old self.old }
        requires group { group < groups self.old }
        requires has { HasSlot arena.old (queue_at self.old group) slot }
        ensures takes { TakesSlot arena.old arena.new self.old self.new group slot }
        ensures ticks { steps.old ≤ steps.new }
    {
        let queue = &mut self.queues[group as usize];
        queue.remove(arena, slot, steps);
        self.len -= 1;
    }
}
