ghost use Rattle.std.specs.Prelude.{◌≡◌, ◌+◌, ◌<◌, ◌≤◌, ◌↔◌, ℕ, Some, None, IsNone, IfSome, List, [], ◌∷◌, ◌++◌, replicate};
ghost use Rattle.flat_policy.specs.Policy.Moves.{without};
ghost use Rattle.flat_policy.specs.Policy.Queue.{Queued};
ghost use Rattle.link_arena.specs.Arena.{Arena as Map, IsLive, value_at};
ghost use Rattle.pairing_heap.specs.Laws.{AddedStaysApart, AddsOneSlot, FirstIsLeast, HeldAreLive, StandsWhenEmpty, StaysWhereCleared, TakenIsLacked, TakenStaysApart, TakesOneSlot};
ghost use Rattle.thread_queue.specs.Item.{entry_of, foreign_key_of_item, foreign_precedes};
ghost use Rattle.thread_queue.specs.declared.item.Item.{Item as Stored};
ghost use Rattle.stealing.specs.Foreign.{Clears, HasSlot, IsBest, IsForeign, IsHeld, IsNewArrival, LacksSlot, OffersEntries, Pushes, Removes, StandsIn, heap_of, wanting};
ghost use Rattle.stealing.specs.Clearing.{ClearsOne};

use link_arena::Arena;
use pairing_heap::{Heap, Steps, laws as heaps};
use sched_base::limits::MOST_CLUSTERS;
use std::marker::Model;
use std::sync::ledger::Ledger;
use thread_queue::Item;

/// The unbound threads of a queue that other clusters may take, in a heap for each cluster: that of the threads that prefer
/// it. The heaps' entries are slots of an arena of items, joined by its links of set 1.
#[derive(Drop, Debug)]
pub struct Foreign {
    heaps: [Heap<1>; MOST_CLUSTERS],
}

impl Model for Foreign {
    ghost use Rattle.stealing.specs.Foreign.{Roots};

    ghost Value = { Roots };

    ghost view = { λ foreign. foreign.heaps };
}

impl Foreign {
    /// Eight heaps with no slot. They stand in every arena.
    pub fn new() -> Foreign
        ensures empty { result ≡ replicate MOST_CLUSTERS None }
        ensures stands { (arena : Map Stored) → StandsIn arena result }
        ensures offers { (arena : Map Stored) → OffersEntries arena result [] }
    {
        heap_laws();
        Foreign::without_slots()
    }

    // Eight heaps with no slot.
    fn without_slots() -> Foreign
        ensures { result ≡ replicate MOST_CLUSTERS None }
    {
        Foreign {
            heaps: [
                Heap::new(),
                Heap::new(),
                Heap::new(),
                Heap::new(),
                Heap::new(),
                Heap::new(),
                Heap::new(),
                Heap::new(),
            ],
        }
    }

    /// Adds a slot, which holds an item and is in no heap of set 1, to the heap of its thread's preferred cluster, with one
    /// comparison at most. The thread is unbound, and the cluster is below 8.
    pub fn push<L: Ledger>(&mut self, arena: &mut Arena<Item>, slot: u32, steps: &mut Steps<L>)
        requires stands { StandsIn arena.old self.old }
        requires live { IsLive arena.old slot }
        requires foreign { (item : Stored) → value_at arena.old slot ≡ Some item → IsForeign item.thread }
        requires lacks { LacksSlot arena.old self.old slot }
        ensures pushes { Pushes arena.old arena.new self.old self.new slot }
        ensures entries { (entries : List Queued) (item : Stored) → value_at arena.old slot ≡ Some item → IsNewArrival entries item.arrival → OffersEntries arena.old self.old entries → OffersEntries arena.new self.new (entries ++ entry_of item ∷ []) }
        ensures ticks { steps.old ≤ steps.new }
        ensures most { steps.new ≤ steps.old + 1 }
    {
        heap_laws();
        let to = arena.get(slot).thread.facts().prefer;
        self.heaps[to as usize].push(arena, slot, steps);
    }

    /// Takes a slot out of the heap that has it, which is that of its thread's preferred cluster, from anywhere. Its links of
    /// set 1 lead nowhere then.
    pub fn remove<L: Ledger>(&mut self, arena: &mut Arena<Item>, slot: u32, steps: &mut Steps<L>)
        requires stands { StandsIn arena.old self.old }
        requires held { IsHeld arena.old self.old slot }
        ensures removes { Removes arena.old arena.new self.old self.new slot }
        ensures entries { (entries : List Queued) (item : Stored) → value_at arena.old slot ≡ Some item → OffersEntries arena.old self.old entries → OffersEntries arena.new self.new (without item.arrival entries) }
        ensures ticks { steps.old ≤ steps.new }
    {
        heap_laws();
        let to = arena.get(slot).thread.facts().prefer;
        self.heaps[to as usize].remove(arena, slot, steps);
    }

    /// The slot that goes first of those that prefer cluster `to`, which is below 8, and None exactly where there is none. No
    /// comparison is made.
    pub fn best(&self, to: u8) -> Option<u32>
        requires { to < MOST_CLUSTERS }
        ensures root { result ≡ heap_of self.now to }
        ensures none { (arena : Map Stored) (entries : List Queued) → OffersEntries arena self.now entries → IsNone result ↔ (wanting to entries ≡ []) }
        ensures held { (arena : Map Stored) → StandsIn arena self.now → IfSome result (λ slot. HasSlot arena self.now to slot) }
        ensures best { (arena : Map Stored) (entries : List Queued) → OffersEntries arena self.now entries → IfSome result (λ slot. IsBest arena self.now to entries slot) }
    {
        heap_laws();
        self.heaps[to as usize].peek()
    }

    /// Takes all slots out of all heaps. The links of set 1 of these slots lead nowhere then; items, links of set 0, and links
    /// of all other slots stay. Nothing is compared.
    pub fn clear<L: Ledger>(&mut self, arena: &mut Arena<Item>, steps: &mut Steps<L>)
        requires { StandsIn arena.old self.old }
        ensures empty { self.new ≡ replicate MOST_CLUSTERS None }
        ensures clears { Clears arena.old arena.new self.old }
        ensures offers { OffersEntries arena.new self.new [] }
        ensures steps { steps.new ≡ steps.old }
    {
        heap_laws();
        for to in 0..MOST_CLUSTERS {
            self.clear_one(arena, to);
        }
        let _steps = &*steps;
    }

    // Takes all slots out of one cluster's heap.
    fn clear_one(&mut self, arena: &mut Arena<Item>, to: usize)
        requires stands { StandsIn arena.old self.old }
        requires cluster { to < MOST_CLUSTERS }
        ensures { ClearsOne arena.old arena.new self.old self.new to }
    {
        heap_laws();
        self.heaps[to].clear(arena);
    }
}

// What heaps of set 1 keep, as the laws of heaps say it.
fn heap_laws()
    ensures live { HeldAreLive 1 foreign_key_of_item foreign_precedes }
    ensures empty { StandsWhenEmpty 1 foreign_key_of_item foreign_precedes }
    ensures first { FirstIsLeast 1 foreign_key_of_item foreign_precedes }
    ensures adds { AddsOneSlot 1 foreign_key_of_item foreign_precedes }
    ensures added { AddedStaysApart 1 foreign_key_of_item foreign_precedes }
    ensures takes { TakesOneSlot 1 foreign_key_of_item foreign_precedes }
    ensures taken { TakenStaysApart 1 foreign_key_of_item foreign_precedes }
    ensures lacked { TakenIsLacked 1 foreign_key_of_item foreign_precedes }
    ensures cleared { StaysWhereCleared 1 foreign_key_of_item foreign_precedes }
{
    heaps::held_are_live::<Item, 1>();
    heaps::stands_when_empty::<Item, 1>();
    heaps::first_is_least::<Item, 1>();
    heaps::adds_one_slot::<Item, 1>();
    heaps::added_stays_apart::<Item, 1>();
    heaps::takes_one_slot::<Item, 1>();
    heaps::taken_stays_apart::<Item, 1>();
    heaps::taken_is_lacked::<Item, 1>();
    heaps::stays_where_cleared::<Item, 1>();
}
