//! The slots of one queue, priced anew.

ghost use Rattle.std.specs.Prelude.{◌≡◌, ◌≤◌, vec_capacity};
ghost use Rattle.link_arena.specs.Arena.{value_at};
ghost use Rattle.pairing_heap.specs.Laws.{HeldAreLive};
ghost use Rattle.thread_queue.specs.Item.{key_of_item, key_precedes};
ghost use Rattle.thread_queue.specs.Laws.{SettledStaysApart, SlotsStandOnce, WalkCountsSlots};
ghost use Rattle.thread_queue.specs.Queue.{HasSlot, StandsIn};
ghost use Rattle.clutch_bucket.specs.Repricing.{Reprices, RepricesSlot, changed_in, changes_pri};

use link_arena::Arena;
use pairing_heap::{Steps, laws as heaps};
use std::sync::ledger::Ledger;
use thread_queue::{Item, ThreadQueue, laws as queues};
use timeshare_decay::{decay, priority};

/// Prices each slot of a queue anew at the moment `now` (microseconds): its thread's usage decays to then, and its priority goes
/// by the usage and by how many slots the queue has. Tells how many priorities changed. `slots` is room for a list of the slots,
/// so that no memory is taken; what it holds before and after means nothing.
///
/// With its priority the key of a slot for link set 1 changes, so no slot of the queue is to be in a heap of that set.
pub fn refresh_queue<L: Ledger>(
    queue: &mut ThreadQueue,
    arena: &mut Arena<Item>,
    now: u64,
    slots: &mut Vec<u32>,
    steps: &mut Steps<L>,
) -> u32
    requires stands { StandsIn arena.old queue.old }
    requires room { queue.old.count ≤ vec_capacity slots.old }
    ensures reprices { Reprices arena.old arena.new queue.old queue.new now }
    ensures changed { result ≡ changed_in arena.old queue.old now }
    ensures most { result ≤ queue.old.count }
    ensures room { vec_capacity slots.new ≡ vec_capacity slots.old }
    ensures ticks { steps.old ≤ steps.new }
{
    refresh_laws();
    slots.clear();
    queue.list(arena, slots);
    let count = queue.len();
    let mut changed = 0;
    for slot in slots.iter() {
        if reprice_slot(queue, arena, *slot, count, now, steps) {
            changed += 1;
        }
    }
    changed
}

// Prices a slot of the queue anew, among so many entries of its unit. Tells whether its priority changed.
fn reprice_slot<L: Ledger>(
    queue: &mut ThreadQueue,
    arena: &mut Arena<Item>,
    slot: u32,
    count: u32,
    now: u64,
    steps: &mut Steps<L>,
) -> bool
    requires stands { StandsIn arena.old queue.old }
    requires held { HasSlot arena.old queue.old slot }
    requires count { 1 ≤ count }
    ensures reprices { RepricesSlot arena.old arena.new queue.old queue.new slot count now }
    ensures changed { result ≡ changes_pri count now (value_at arena.old slot) }
    ensures ticks { steps.old ≤ steps.new }
{
    refresh_laws();
    let item = arena.get(slot);
    let before = item.pri;
    let facts = item.thread.facts();
    let usage = decay(facts.usage, facts.seen, now);
    let pri = priority(facts.base, facts.bucket, usage, count);
    queue.settle(arena, slot, usage, now, pri, steps);
    pri != before
}

// What queues keep where a slot is settled, and what a walk lists, as their laws say it.
fn refresh_laws()
    ensures held { HeldAreLive 0 key_of_item key_precedes }
    ensures settled { SettledStaysApart }
    ensures once { SlotsStandOnce }
    ensures walk { WalkCountsSlots }
{
    heaps::held_are_live::<Item, 0>();
    queues::settled_stays_apart();
    queues::slots_stand_once();
    queues::walk_counts_slots();
}
