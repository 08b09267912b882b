//! The heaps of foreign threads, filled anew.

ghost use Rattle.std.specs.Prelude.{◌≡◌, ◌<◌, ◌≤◌, ◌+◌, ℕ, Some};
ghost use Rattle.link_arena.specs.Arena.{IsLive, value_at};
ghost use Rattle.stealing.specs.Laws.{LacksNewArrival, OffersByUnbound};
ghost use Rattle.thread_queue.specs.Laws.{StaysWhereOtherSetChanges};
ghost use Rattle.clutch_bucket.specs.Laws.{LanesStay};
ghost use Rattle.cluster_queue.specs.Filling.{FilledBelow, OnlyForeignChange, end_of};
ghost use Rattle.cluster_queue.specs.Heaps.{HeapsFollow};
ghost use Rattle.cluster_queue.specs.Refreshing.{CanFill};

use super::Heaps;
use clutch_bucket::laws as lanes;
use link_arena::Arena;
use pairing_heap::Steps;
use std::sync::ledger::Ledger;
use stealing::laws as foreign;
use thread_queue::{Item, laws as queues};

impl Heaps {
    /// The slots of all unbound threads come into the heaps of foreign threads, which are empty.
    pub fn fill_foreign<L: Ledger>(&mut self, arena: &mut Arena<Item>, steps: &mut Steps<L>)
        requires can { CanFill arena.old self.old }
        ensures follows { (can : CanFill arena.old self.old) → HeapsFollow arena.new self.new can.count can.s }
        ensures same { self.new ≡ record self.old { foreign = self.new.foreign } }
        ensures values { (slot : ℕ) → value_at arena.new slot ≡ value_at arena.old slot }
        ensures spare { arena.new.spare ≡ arena.old.spare }
        ensures ticks { steps.old ≤ steps.new }
    {
        fill_laws();
        let mut next = Some(0);
        while let Some(from) = next {
            next = self.fill_from(arena, from, steps);
        }
    }

    // The first slot from this one on that holds an item is added, if there is one. Tells the slot to go on from.
    fn fill_from<L: Ledger>(
        &mut self,
        arena: &mut Arena<Item>,
        from: u32,
        steps: &mut Steps<L>,
    ) -> Option<u32>
        requires { FilledBelow arena.old self.old from }
        ensures filled { FilledBelow arena.new self.new (end_of result) }
        ensures further { from < end_of result }
        ensures same { self.new ≡ record self.old { foreign = self.new.foreign } }
        ensures kept { OnlyForeignChange arena.old arena.new }
        ensures ticks { steps.old ≤ steps.new }
    {
        let slot = arena.next_live(from)?;
        self.add_foreign(arena, slot, steps);
        slot.checked_add(1)
    }

    // The slot comes into the heap of its thread's preferred cluster, if the thread is unbound.
    fn add_foreign<L: Ledger>(&mut self, arena: &mut Arena<Item>, slot: u32, steps: &mut Steps<L>)
        requires live { IsLive arena.old slot }
        requires filled { FilledBelow arena.old self.old slot }
        ensures filled { FilledBelow arena.new self.new (slot + 1) }
        ensures same { self.new ≡ record self.old { foreign = self.new.foreign } }
        ensures kept { OnlyForeignChange arena.old arena.new }
        ensures ticks { steps.old ≤ steps.new }
    {
        fill_laws();
        if arena.get(slot).thread.facts().bound.is_some() {
            return;
        }
        self.foreign.push(arena, slot, steps);
    }
}

// What stays where slots come into the heaps of foreign threads, as the laws say it.
fn fill_laws()
    ensures unbound { OffersByUnbound }
    ensures lacks { LacksNewArrival }
    ensures queues { StaysWhereOtherSetChanges }
    ensures stay { LanesStay }
{
    foreign::offers_by_unbound();
    foreign::lacks_new_arrival();
    queues::stays_where_other_set_changes();
    lanes::lanes_stay();
}
