ghost use Rattle.std.specs.Prelude.{◌≡◌, ℕ, ◌+◌, ◌≤◌, Some, None, IsTrue, ◌↔◌, IsNone, IfSome, IfNone, List, ◌∷◌, ◌++◌, length, vec_len, vec_capacity};

mod uncounted;

use crate::clear::clear_from;
use crate::meld::{add_root, take_root, take_slot};
use crate::walk::{list_slots, next_slot};
use crate::{Counted, Keyed, Steps};
use link_arena::Arena;
use std::marker::Model;
use std::sync::ledger::Ledger;

/// A heap whose nodes are slots of an arena, joined by its links of set `K`.
#[derive(Drop, Debug)]
pub struct Heap<const K: usize> {
    root: Option<u32>,
}

impl<const K: usize> Model for Heap<K> {
    ghost use Rattle.std.specs.Prelude.{Option, ℕ};

    ghost Value = { Option ℕ };

    ghost view = { λ h. h.root };
}

impl<const K: usize> Heap<K> {
    ghost use Rattle.link_arena.specs.Arena.{IsLive, value_at};
    ghost use Rattle.pairing_heap.specs.Tree.{leaf, node};
    ghost use Rattle.pairing_heap.specs.Melding.{melded, taken_out};
    ghost use Rattle.pairing_heap.specs.Heap.{keys_at, Stands, Lacks, Holds, AddsPair, TakesPair, RekeysPair, tree_at, pairs_at, ClearsSlots, slots_at, first_slot};

    /// A heap with no entry.
    pub fn new() -> Heap<K>
        ensures { result ≡ None }
    {
        Heap { root: None }
    }

    /// Whether the heap has no entry.
    pub fn is_empty(&self) -> bool
        ensures { IsTrue result ↔ IsNone self.now }
    {
        self.root.is_none()
    }

    /// The slot that no other precedes, as the law `first_is_least` says.
    pub fn peek(&self) -> Option<u32>
        ensures { result ≡ self.now }
    {
        self.root
    }

    /// Adds a slot, which holds a value and is in no heap of the set, with one comparison at most and none where the heap
    /// is empty.
    pub fn push<V: Keyed<K>, L: Ledger>(
        &mut self,
        arena: &mut Arena<V>,
        slot: u32,
        steps: &mut Steps<L>,
    )
    where
        V::Key: Counted<L>,
        requires stands { Stands K V.key_of V.Key.precedes arena.old self.old }
        requires live { IsLive arena.old slot }
        requires lacks { Lacks K V.key_of arena.old self.old slot }
        ensures adds { AddsPair K V.key_of V.Key.precedes arena.old arena.new self.old self.new slot }
        ensures melds { (key : V.Key) → keys_at V.key_of arena.old slot ≡ Some key → tree_at K V.key_of arena.new self.new ≡ melded V.Key.precedes (tree_at K V.key_of arena.old self.old) (node key slot leaf leaf) }
        ensures ticks { steps.old ≤ steps.new }
        ensures most { steps.new ≤ steps.old + 1 }
        ensures first { self.old ≡ None → steps.new ≡ steps.old }
    {
        self.root = Some(add_root::<V, K, L>(arena, self.root, slot, steps));
    }

    /// Takes out what `peek` gives, whose links lead nowhere then. The root's children are melded in pairs from left to
    /// right, and the pairs then from right to left into one.
    pub fn pop<V: Keyed<K>, L: Ledger>(
        &mut self,
        arena: &mut Arena<V>,
        steps: &mut Steps<L>,
    ) -> Option<u32>
    where
        V::Key: Counted<L>,
        requires { Stands K V.key_of V.Key.precedes arena.old self.old }
        ensures first { result ≡ self.old }
        ensures takes { IfSome result (λ slot. TakesPair K V.key_of V.Key.precedes arena.old arena.new self.old self.new slot) }
        ensures pairs { IfSome result (λ slot. tree_at K V.key_of arena.new self.new ≡ taken_out V.Key.precedes slot (tree_at K V.key_of arena.old self.old)) }
        ensures heap { IfNone result (self.new ≡ self.old) }
        ensures arena { IfNone result (arena.new ≡ arena.old) }
        ensures ticks { steps.old ≤ steps.new }
        ensures most { steps.new ≤ steps.old + length (pairs_at K V.key_of arena.old self.old) }
    {
        let Some(root) = self.root else {
            return None;
        };
        self.root = take_root::<V, K, L>(arena, root, steps);
        Some(root)
    }

    /// Takes a slot out, from anywhere, by its links, which lead nowhere then. Its children are melded in pairs from left to
    /// right, the pairs then from right to left into one, and that with the rest of the heap.
    pub fn remove<V: Keyed<K>, L: Ledger>(
        &mut self,
        arena: &mut Arena<V>,
        slot: u32,
        steps: &mut Steps<L>,
    )
    where
        V::Key: Counted<L>,
        requires stands { Stands K V.key_of V.Key.precedes arena.old self.old }
        requires held { Holds K V.key_of arena.old self.old slot }
        ensures takes { TakesPair K V.key_of V.Key.precedes arena.old arena.new self.old self.new slot }
        ensures pairs { tree_at K V.key_of arena.new self.new ≡ taken_out V.Key.precedes slot (tree_at K V.key_of arena.old self.old) }
        ensures ticks { steps.old ≤ steps.new }
        ensures most { steps.new ≤ steps.old + length (pairs_at K V.key_of arena.old self.old) }
    {
        self.root = take_slot::<V, K, L>(arena, self.root, slot, steps);
    }

    /// The slot after one of the heap's in the order of a walk, which begins with what `peek` gives and comes to each slot
    /// once. Nothing is compared or written, and a whole walk looks at each slot three times at most.
    pub fn next<V: Keyed<K>>(&self, arena: &Arena<V>, slot: u32) -> Option<u32>
        requires stands { Stands K V.key_of V.Key.precedes arena.now self.now }
        requires held { Holds K V.key_of arena.now self.now slot }
        ensures { (before after : List ℕ) → slots_at K V.key_of arena.now self.now ≡ before ++ (slot ∷ after) → result ≡ first_slot after }
    {
        next_slot::<V, K>(arena, self.root, slot)
    }

    /// Puts all slots of the heap, each once, at the end of a list that has room for them, in the order of a walk. Nothing
    /// is compared, no memory is taken, and each slot is looked at four times at most.
    pub fn list<V: Keyed<K>>(&self, arena: &Arena<V>, slots: &mut Vec<u32>)
        requires stands { Stands K V.key_of V.Key.precedes arena.now self.now }
        requires room { vec_len slots.old + length (pairs_at K V.key_of arena.now self.now) ≤ vec_capacity slots.old }
        ensures lists { slots.new.items ≡ slots.old.items ++ slots_at K V.key_of arena.now self.now }
        ensures room { vec_capacity slots.new ≡ vec_capacity slots.old }
    {
        list_slots::<V, K>(arena, self.root, slots);
    }

    /// Takes all slots out, whose links lead nowhere then. Nothing is compared, and each slot is looked at twice at most.
    pub fn clear<V: Keyed<K>>(&mut self, arena: &mut Arena<V>)
        requires { Stands K V.key_of V.Key.precedes arena.old self.old }
        ensures empty { self.new ≡ None }
        ensures clears { ClearsSlots K V.key_of V.Key.precedes arena.old arena.new self.old }
    {
        clear_from::<V, K>(arena, self.root);
        self.root = None;
    }

    /// Gives a slot of the heap the value `v`, and the place in the heap that goes with its key, and hands back the old
    /// value.
    pub fn rekey<V: Keyed<K>, L: Ledger>(
        &mut self,
        arena: &mut Arena<V>,
        slot: u32,
        v: V,
        steps: &mut Steps<L>,
    ) -> V
    where
        V::Key: Counted<L>,
        requires stands { Stands K V.key_of V.Key.precedes arena.old self.old }
        requires held { Holds K V.key_of arena.old self.old slot }
        ensures value { value_at arena.old slot ≡ Some result }
        ensures rekeys { RekeysPair K V.key_of V.Key.precedes arena.old arena.new self.old self.new slot v }
        ensures melds { tree_at K V.key_of arena.new self.new ≡ melded V.Key.precedes (taken_out V.Key.precedes slot (tree_at K V.key_of arena.old self.old)) (node (V.key_of v) slot leaf leaf) }
        ensures ticks { steps.old ≤ steps.new }
        ensures most { steps.new ≤ steps.old + length (pairs_at K V.key_of arena.old self.old) + 1 }
    {
        self.remove(arena, slot, steps);
        let old = arena.replace(slot, v);
        self.push(arena, slot, steps);
        old
    }
}
