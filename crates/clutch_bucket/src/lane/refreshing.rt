//! Entries priced anew.

ghost use Rattle.std.specs.Prelude.{◌≡◌, ◌≢◌, ◌<◌, ◌≤◌, ◌+◌, ◌-◌, ◌^◌, ◌==◌, ℕ, Some, count_by, false, not};
ghost use Rattle.flat_policy.specs.Laws.Refreshing.{with_turns_of};
ghost use Rattle.flat_policy.specs.Policy.Queue.{Flat, Queued, lane, lane_entries};
ghost use Rattle.flat_policy.specs.Policy.Refresh.{repriced};
ghost use Rattle.flat_policy.specs.Policy.WellFormed.{WellFormed};
ghost use Rattle.link_arena.specs.Arena.{links_at, value_at};
ghost use Rattle.sched_base.specs.declared.Bucket.TheVariants.{Ui};
ghost use Rattle.thread_queue.specs.declared.item.Item.{Item as Stored};
ghost use Rattle.clutch_bucket.specs.Lane.{Follows, HasLaneSlot, HoldsRepriced, LacksLaneSlot, LanePriced, LaneStands, OtherQueuesStay, SameGroups, UnitsStand, groups, queue_at};
ghost use Rattle.clutch_bucket.specs.Repricing.{PricedUpTo, RepricesUnit, changed_in, changed_upto};

use super::{LaneUnits, queue_laws};
use crate::refresh_queue;
use link_arena::Arena;
use pairing_heap::Steps;
use std::sync::ledger::Ledger;
use thread_queue::{Item, laws as queues};

impl LaneUnits {
    /// Prices every entry anew at the moment `now` (microseconds), and tells how many priorities changed. In order of groups, each
    /// unit that has entries and whose priority changed takes the turn `turns`, which then rises by one.
    ///
    /// With its priority the key of a slot for link set 1 changes, so no slot of the lane is to be in a heap of that set.
    pub fn refresh<L: Ledger>(
        &mut self,
        arena: &mut Arena<Item>,
        now: u64,
        turns: &mut u64,
        steps: &mut Steps<L>,
    ) -> u32
        requires stands { LaneStands arena.old self.old }
        requires bucket { self.old.bucket ≢ Ui }
        requires turn { turns.old < 2 ^ 63 - 64 }
        ensures stands { LaneStands arena.new self.new }
        ensures follows { (s p : Flat) → Follows arena.old self.old s → WellFormed (groups self.old) s → LanePriced (groups self.old) now s p self.old.bucket → turns.old ≡ p.next_turn
            → Follows arena.new self.new (with_turns_of (groups self.old) s p self.old.bucket) × (turns.new ≡ (with_turns_of (groups self.old) s p self.old.bucket).next_turn) }
        ensures changed { (s : Flat) → Follows arena.old self.old s → WellFormed (groups self.old) s
            → result ≡ count_by (λ (e : Queued). not ((repriced s now e).pri == e.pri)) (lane_entries s (lane self.old.bucket false)) }
        ensures repriced { (s : Flat) (slot : ℕ) (item : Stored) → Follows arena.old self.old s → WellFormed (groups self.old) s → HasLaneSlot arena.old self.old slot
            → value_at arena.old slot ≡ Some item → HoldsRepriced arena.new s now slot item }
        ensures others { (slot : ℕ) → LacksLaneSlot arena.old self.old slot → value_at arena.new slot ≡ value_at arena.old slot }
        ensures second { (slot : ℕ) → links_at arena.new 1 slot ≡ links_at arena.old 1 slot }
        ensures spare { arena.new.spare ≡ arena.old.spare }
        ensures len { self.new.len ≡ self.old.len }
        ensures groups { SameGroups self.old self.new }
        ensures queues { OtherQueuesStay arena.old arena.new self.old self.new }
        ensures turn { turns.old ≤ turns.new }
        ensures turn_most { turns.new ≤ turns.old + 64 }
        ensures ticks { steps.old ≤ steps.new }
    {
        queue_laws();
        queues::slots_stand_once();
        queues::walk_counts_slots();
        // A proof knows what a lane keeps, here that it has 4096 entries at most, where a field is read.
        let _len = self.len;
        let changed = self.reprice_all(arena, now, steps);
        self.renew_all(arena, turns, steps);
        changed
    }

    // Prices the entries of all units anew. Keys stay. Tells how many priorities changed.
    fn reprice_all<L: Ledger>(
        &mut self,
        arena: &mut Arena<Item>,
        now: u64,
        steps: &mut Steps<L>,
    ) -> u32
        requires units { UnitsStand arena.old self.old }
        requires room { self.old.len ≤ 4096 }
        ensures priced { PricedUpTo arena.old arena.new self.old self.new (groups self.old) now }
        ensures changed { result ≡ changed_upto arena.old self.old now (groups self.old) }
        ensures ticks { steps.old ≤ steps.new }
    {
        queue_laws();
        queues::walk_counts_slots();
        let mut changed = 0;
        for group in 0..self.groups() {
            changed += self.reprice_unit(arena, group, now, steps);
        }
        changed
    }

    // Prices the entries of a group's unit anew. Keys stay. Tells how many priorities changed.
    fn reprice_unit<L: Ledger>(
        &mut self,
        arena: &mut Arena<Item>,
        group: u8,
        now: u64,
        steps: &mut Steps<L>,
    ) -> u32
        requires units { UnitsStand arena.old self.old }
        requires group { group < groups self.old }
        requires room { self.old.len ≤ 4096 }
        ensures reprices { RepricesUnit arena.old arena.new self.old self.new group now }
        ensures changed { result ≡ changed_in arena.old (queue_at self.old group) now }
        ensures most { result ≤ (queue_at self.old group).count }
        ensures ticks { steps.old ≤ steps.new }
    {
        let queue = &mut self.queues[group as usize];
        refresh_queue(queue, arena, now, &mut self.slots, steps)
    }
}
