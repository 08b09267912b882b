//! The calls on a heap for who counts no comparisons. Each opens a ledger of its own, whose counter nobody reads.
ghost use Rattle.std.specs.Prelude.{◌≡◌, ◌<◌, ℕ, Option, Some, None, IfSome, IfNone};
ghost use Rattle.link_arena.specs.Arena.{Arena as Map, IsLive, value_at};
ghost use Rattle.pairing_heap.specs.Tree.{leaf, node};
ghost use Rattle.pairing_heap.specs.Melding.{melded, taken_out};
ghost use Rattle.pairing_heap.specs.Heap.{keys_at, Stands, Lacks, Holds, AddsPair, TakesPair, RekeysPair, tree_at};
ghost use Rattle.pairing_heap.specs.Uncounted.{CanAdd, CanTake, Adds, Takes};

use crate::laws::first_is_least;
use crate::meld::{add_root, take_slot};
use crate::{Heap, HeapKey, Keyed, Steps, Tallied};
use link_arena::Arena;
use std::marker::{Brand, PhantomData};
use std::sync::ledger::{Blank, Ledger};

impl<const K: usize> Heap<K> {
    /// As `push`, with a counter that nobody reads.
    pub fn push_uncounted<V: Keyed<K>>(&mut self, arena: &mut Arena<V>, slot: u32)
    where
        V::Key: Tallied,
        requires stands { Stands K V.key_of V.Key.precedes arena.old self.old }
        requires live { IsLive arena.old slot }
        requires lacks { Lacks K V.key_of arena.old self.old slot }
        ensures adds { AddsPair K V.key_of V.Key.precedes arena.old arena.new self.old self.new slot }
        ensures melds { (key : V.Key) → keys_at V.key_of arena.old slot ≡ Some key → tree_at K V.key_of arena.new self.new ≡ melded V.Key.precedes (tree_at K V.key_of arena.old self.old) (node key slot leaf leaf) }
    {
        let root = add_by::<Over<V, K>, Brand>(arena, self.root, slot, Blank::new(1));
        self.root = Some(root);
    }

    /// As `pop`, with a counter that nobody reads.
    pub fn pop_uncounted<V: Keyed<K>>(&mut self, arena: &mut Arena<V>) -> Option<u32>
    where
        V::Key: Tallied,
        requires { Stands K V.key_of V.Key.precedes arena.old self.old }
        ensures first { result ≡ self.old }
        ensures takes { IfSome result (λ slot. TakesPair K V.key_of V.Key.precedes arena.old arena.new self.old self.new slot) }
        ensures pairs { IfSome result (λ slot. tree_at K V.key_of arena.new self.new ≡ taken_out V.Key.precedes slot (tree_at K V.key_of arena.old self.old)) }
        ensures heap { IfNone result (self.new ≡ self.old) }
        ensures arena { IfNone result (arena.new ≡ arena.old) }
    {
        first_is_least::<V, K>();
        let root = self.root?;
        self.remove_uncounted(arena, root);
        Some(root)
    }

    /// As `remove`, with a counter that nobody reads.
    pub fn remove_uncounted<V: Keyed<K>>(&mut self, arena: &mut Arena<V>, slot: u32)
    where
        V::Key: Tallied,
        requires stands { Stands K V.key_of V.Key.precedes arena.old self.old }
        requires held { Holds K V.key_of arena.old self.old slot }
        ensures takes { TakesPair K V.key_of V.Key.precedes arena.old arena.new self.old self.new slot }
        ensures pairs { tree_at K V.key_of arena.new self.new ≡ taken_out V.Key.precedes slot (tree_at K V.key_of arena.old self.old) }
    {
        let root = take_by::<Over<V, K>, Brand>(arena, self.root, slot, Blank::new(1));
        self.root = root;
    }

    /// As `rekey`, with a counter that nobody reads.
    pub fn rekey_uncounted<V: Keyed<K>>(&mut self, arena: &mut Arena<V>, slot: u32, v: V) -> V
    where
        V::Key: Tallied,
        requires stands { Stands K V.key_of V.Key.precedes arena.old self.old }
        requires held { Holds K V.key_of arena.old self.old slot }
        ensures value { value_at arena.old slot ≡ Some result }
        ensures rekeys { RekeysPair K V.key_of V.Key.precedes arena.old arena.new self.old self.new slot v }
        ensures melds { tree_at K V.key_of arena.new self.new ≡ melded V.Key.precedes (taken_out V.Key.precedes slot (tree_at K V.key_of arena.old self.old)) (node (V.key_of v) slot leaf leaf) }
    {
        self.remove_uncounted(arena, slot);
        let old = arena.replace(slot, v);
        self.push_uncounted(arena, slot);
        old
    }
}

/// What is done to a heap in an arena by whatever ledger. It names neither the heap's set nor its keys, so that a call can pick
/// the ledger.
pub trait ByLedger {
    type Value;

    ghost can_add: { Map Self.Value → Option ℕ → ℕ → Type 0 };

    ghost adds: { Map Self.Value → Map Self.Value → Option ℕ → Option ℕ → ℕ → Type 0 };

    ghost can_take: { Map Self.Value → Option ℕ → ℕ → Type 0 };

    ghost takes: { Map Self.Value → Map Self.Value → Option ℕ → Option ℕ → ℕ → Type 0 };

    /// Adds a slot to the heap with this root, and returns the root.
    fn add<L: Ledger>(
        arena: &mut Arena<Self::Value>,
        heap: Option<u32>,
        slot: u32,
        steps: &mut Steps<L>,
    ) -> u32
        requires { can_add arena.old heap slot }
        ensures { adds arena.old arena.new heap (Some result) slot };

    /// Takes a slot out of the heap with this root, and returns the root that the heap has then.
    fn take<L: Ledger>(
        arena: &mut Arena<Self::Value>,
        heap: Option<u32>,
        slot: u32,
        steps: &mut Steps<L>,
    ) -> Option<u32>
        requires { can_take arena.old heap slot }
        ensures { takes arena.old arena.new heap result slot };
}

/// The heaps of link set `K` over values `V`.
pub struct Over<V, const K: usize> {
    marker: PhantomData<V>,
}

impl<V: Keyed<K>, const K: usize> ByLedger for Over<V, K>
where
    V::Key: Tallied,
{
    type Value = V;

    ghost can_add = { CanAdd K V.key_of V.Key.precedes };

    ghost adds = { Adds K V.key_of V.Key.precedes };

    ghost can_take = { CanTake K V.key_of V.Key.precedes };

    ghost takes = { Takes K V.key_of V.Key.precedes };

    fn add<L: Ledger>(
        arena: &mut Arena<V>,
        heap: Option<u32>,
        slot: u32,
        steps: &mut Steps<L>,
    ) -> u32 {
        add_root::<V, K, L>(arena, heap, slot, steps)
    }

    fn take<L: Ledger>(
        arena: &mut Arena<V>,
        heap: Option<u32>,
        slot: u32,
        steps: &mut Steps<L>,
    ) -> Option<u32> {
        take_slot::<V, K, L>(arena, heap, slot, steps)
    }
}

// Adds a slot, with a counter by a new ledger.
fn add_by<B: ByLedger, L: Ledger>(
    arena: &mut Arena<B::Value>,
    heap: Option<u32>,
    slot: u32,
    blank: Blank,
) -> u32
    requires name { blank.name ≡ L.name }
    requires parts { blank.parts ≡ L.parts }
    requires some { 0 < blank.parts }
    requires can { B.can_add arena.old heap slot }
    ensures { B.adds arena.old arena.new heap (Some result) slot }
{
    let mut steps = Steps::<L>::new(blank);
    B::add::<L>(arena, heap, slot, &mut steps)
}

// Takes a slot out, with a counter by a new ledger.
fn take_by<B: ByLedger, L: Ledger>(
    arena: &mut Arena<B::Value>,
    heap: Option<u32>,
    slot: u32,
    blank: Blank,
) -> Option<u32>
    requires name { blank.name ≡ L.name }
    requires parts { blank.parts ≡ L.parts }
    requires some { 0 < blank.parts }
    requires can { B.can_take arena.old heap slot }
    ensures { B.takes arena.old arena.new heap result slot }
{
    let mut steps = Steps::<L>::new(blank);
    B::take::<L>(arena, heap, slot, &mut steps)
}
