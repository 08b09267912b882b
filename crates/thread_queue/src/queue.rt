ghost use Rattle.std.specs.Prelude.{◌≡◌, ℕ, ◌+◌, ◌<◌, ◌≤◌, Some, None, ◌↔◌, IsNone, IfSome, List, [], ◌∷◌, ◌++◌, vec_len, vec_capacity};
ghost use Rattle.link_arena.specs.Arena.{Arena as Map, IsLive, value_at, Revalues};
ghost use Rattle.pairing_heap.specs.Laws.{HeldAreLive, FirstIsLeast, AddsOneSlot, AddsOnePair, TakesOneSlot, TakesOnePair, TakenIsLacked, StaysWhereRevalued, RekeysNoSlot, RekeysNoPair, RekeysWherePushedAgain, RekeysWhereKeyStays};
ghost use Rattle.thread_queue.specs.Item.{key_of_item, key_precedes, settled_item};
ghost use Rattle.thread_queue.specs.declared.item.Item.{Item as Stored};
ghost use Rattle.thread_queue.specs.Queue.{StandsIn, HasSlot, LacksSlot, IsFirst, Pushes, Removes, Settles, StaysInPlace, Clears, members, walk_of};
ghost use Rattle.pairing_heap.specs.Heap.{first_slot};

use crate::Item;
use link_arena::Arena;
use pairing_heap::{Heap, Steps, laws as heaps};
use std::marker::Model;
use std::sync::ledger::Ledger;

/// The queue of one unit, whose entries are slots of an arena of items, joined by its links of set 0.
#[derive(Drop, Debug)]
pub struct ThreadQueue {
    heap: Heap<0>,
    // How many slots the heap has.
    count: u32,
}

impl Model for ThreadQueue {
    ghost use Rattle.thread_queue.specs.Queue.{Queue};

    ghost Value = { Queue };

    ghost view = { λ q. record { root = q.heap; count = q.count } };
}

impl ThreadQueue {
    /// A queue with no slot. It stands in every arena.
    pub fn new() -> ThreadQueue
        ensures empty { result ≡ record { root = None; count = 0 } }
        ensures stands { (arena : Map Stored) → StandsIn arena result }
        ensures none { (arena : Map Stored) → members arena result ≡ [] }
    {
        ThreadQueue {
            heap: Heap::new(),
            count: 0,
        }
    }

    /// How many slots are in the queue, in each arena where it stands.
    pub fn len(&self) -> u32
        ensures { result ≡ self.now.count }
    {
        self.count
    }

    /// The slot whose entry no other of the queue precedes, and None exactly where the queue is empty, in each arena
    /// where it stands. No comparison is made.
    pub fn first(&self) -> Option<u32>
        ensures root { result ≡ self.now.root }
        ensures none { (arena : Map Stored) → StandsIn arena self.now → IsNone result ↔ (members arena self.now ≡ []) }
        ensures empty { (arena : Map Stored) → StandsIn arena self.now → IsNone result ↔ (self.now.count ≡ 0) }
        ensures first { (arena : Map Stored) → StandsIn arena self.now → IfSome result (λ slot. IsFirst arena self.now slot) }
    {
        heap_laws();
        self.heap.peek()
    }

    /// The slot after one of the queue's in the order of a walk, which begins with what `first` gives and comes to each slot
    /// once. Nothing is compared or written.
    pub fn next(&self, arena: &Arena<Item>, slot: u32) -> Option<u32>
        requires stands { StandsIn arena.now self.now }
        requires held { HasSlot arena.now self.now slot }
        ensures { (before after : List ℕ) → walk_of arena.now self.now ≡ before ++ (slot ∷ after) → result ≡ first_slot after }
    {
        self.heap.next(arena, slot)
    }

    /// Puts all slots of the queue, each once, at the end of a list that has room for them, in the order of a walk. Nothing is
    /// compared, and no memory is taken.
    pub fn list(&self, arena: &Arena<Item>, slots: &mut Vec<u32>)
        requires stands { StandsIn arena.now self.now }
        requires room { vec_len slots.old + self.now.count ≤ vec_capacity slots.old }
        ensures lists { slots.new.items ≡ slots.old.items ++ walk_of arena.now self.now }
        ensures room { vec_capacity slots.new ≡ vec_capacity slots.old }
    {
        self.heap.list(arena, slots);
    }

    /// Adds a slot, which holds an item and is in no queue, with one comparison at most and none where the queue is
    /// empty.
    pub fn push<L: Ledger>(&mut self, arena: &mut Arena<Item>, slot: u32, steps: &mut Steps<L>)
        requires stands { StandsIn arena.old self.old }
        requires live { IsLive arena.old slot }
        requires lacks { LacksSlot arena.old self.old slot }
        requires room { self.old.count < 4096 }
        ensures pushes { Pushes arena.old arena.new self.old self.new slot }
        ensures ticks { steps.old ≤ steps.new }
        ensures most { steps.new ≤ steps.old + 1 }
        ensures first { self.old.root ≡ None → steps.new ≡ steps.old }
    {
        heap_laws();
        self.heap.push(arena, slot, steps);
        self.count += 1;
    }

    /// Takes a slot of the queue out, from anywhere. Its links of set 0 lead nowhere then.
    pub fn remove<L: Ledger>(&mut self, arena: &mut Arena<Item>, slot: u32, steps: &mut Steps<L>)
        requires stands { StandsIn arena.old self.old }
        requires held { HasSlot arena.old self.old slot }
        ensures removes { Removes arena.old arena.new self.old self.new slot }
        ensures ticks { steps.old ≤ steps.new }
        ensures most { steps.new ≤ steps.old + self.old.count }
    {
        heap_laws();
        self.heap.remove(arena, slot, steps);
        self.count -= 1;
    }

    /// Takes all slots out, whose links of set 0 lead nowhere then. Nothing is compared.
    pub fn clear(&mut self, arena: &mut Arena<Item>)
        requires { StandsIn arena.old self.old }
        ensures empty { self.new ≡ record { root = None; count = 0 } }
        ensures clears { Clears arena.old arena.new self.old }
    {
        self.heap.clear(arena);
        self.count = 0;
    }

    /// Settles the thread of a slot of the queue at the moment `seen` (microseconds), with `usage` (microseconds), and
    /// gives its item the priority `pri`. The slot stays in the queue, at the place that goes with the priority, with
    /// its number and its arrival. Where the priority stays the same, so do the queue and all links, and nothing is compared.
    ///
    /// With the priority the slot's key for link set 1 changes, so the slot is to be in no heap of that set then.
    pub fn settle<L: Ledger>(
        &mut self,
        arena: &mut Arena<Item>,
        slot: u32,
        usage: u32,
        seen: u64,
        pri: u8,
        steps: &mut Steps<L>,
    )
        requires stands { StandsIn arena.old self.old }
        requires held { HasSlot arena.old self.old slot }
        ensures settles { Settles arena.old arena.new self.old self.new slot usage seen pri }
        ensures ticks { steps.old ≤ steps.new }
        ensures most { steps.new ≤ steps.old + (self.old.count + 1) }
        ensures steady { (item : Stored) → value_at arena.old slot ≡ Some item → item.pri ≡ pri → StaysInPlace arena.old arena.new self.old self.new × (steps.new ≡ steps.old) }
    {
        heap_laws();
        if arena.get(slot).pri == pri {
            settle_item(arena, slot, usage, seen, pri);
            return;
        }
        self.heap.remove(arena, slot, steps);
        settle_item(arena, slot, usage, seen, pri);
        self.heap.push(arena, slot, steps);
    }
}

// What heaps of set 0 keep, as the laws of heaps say it.
fn heap_laws()
    ensures live { HeldAreLive 0 key_of_item key_precedes }
    ensures first { FirstIsLeast 0 key_of_item key_precedes }
    ensures adds_slot { AddsOneSlot 0 key_of_item key_precedes }
    ensures adds_pair { AddsOnePair 0 key_of_item key_precedes }
    ensures takes_slot { TakesOneSlot 0 key_of_item key_precedes }
    ensures takes_pair { TakesOnePair 0 key_of_item key_precedes }
    ensures lacked { TakenIsLacked 0 key_of_item key_precedes }
    ensures revalued { StaysWhereRevalued 0 key_of_item key_precedes }
    ensures rekeys_slot { RekeysNoSlot 0 key_of_item key_precedes }
    ensures rekeys_pair { RekeysNoPair 0 key_of_item key_precedes }
    ensures rekeys_again { RekeysWherePushedAgain 0 key_of_item key_precedes }
    ensures rekeys_there { RekeysWhereKeyStays 0 key_of_item key_precedes }
{
    heaps::held_are_live::<Item, 0>();
    heaps::first_is_least::<Item, 0>();
    heaps::adds_one_slot::<Item, 0>();
    heaps::adds_one_pair::<Item, 0>();
    heaps::takes_one_slot::<Item, 0>();
    heaps::takes_one_pair::<Item, 0>();
    heaps::taken_is_lacked::<Item, 0>();
    heaps::stays_where_revalued::<Item, 0>();
    heaps::rekeys_no_slot::<Item, 0>();
    heaps::rekeys_no_pair::<Item, 0>();
    heaps::rekeys_where_pushed_again::<Item, 0>();
    heaps::rekeys_where_key_stays::<Item, 0>();
}

// Settles the thread of a slot's item, and gives the item a priority. Links stay.
fn settle_item(arena: &mut Arena<Item>, slot: u32, usage: u32, seen: u64, pri: u8)
    requires { IsLive arena.old slot }
    ensures revalues { (item : Stored) → value_at arena.old slot ≡ Some item → Revalues arena.old arena.new slot (settled_item usage seen pri item) }
    ensures spare { arena.new.spare ≡ arena.old.spare }
{
    let item = arena.get_mut(slot);
    item.thread.settle(usage, seen);
    item.pri = pri;
}
