ghost use Rattle.std.specs.Prelude.{◌≡◌, ◌≤◌, ◌<◌, ◌↔◌, ℕ, ◌∷◌, ◌++◌, [], Some, None, IfOk, OnOk, OnErr, IfSome, IsNone, length, replicate, slice_index_or, slice_set};
ghost use Rattle.pairing_heap.specs.Laws.{HeldAreLive, StandsWhenEmpty, StaysWhereReserved, StaysWhereInserted, StaysWhereRevalued, AddsOneSlot, TakesOneSlot, AddedIsHeld, TakenIsLacked, FirstIsLeast};
ghost use Rattle.clutch_bucket.specs.Ranks.{IsFirstUnit, unit_key_precedes};
ghost use Rattle.clutch_bucket.specs.KeptRanks.{key_of_ranked};

#[cfg(test)]
mod tests;

use link_arena::Arena;
use pairing_heap::{Heap, HeapKey, Keyed, Steps, Tallied, laws as heaps};
use std::alloc::{AllocError, Global};
use std::marker::Model;
use std::sync::ledger::Ledger;

/// By what the units of a lane are ordered.
#[derive(Clone, Copy, Debug, PartialEq, Eq)]
pub struct UnitKey {
    /// The priority of the unit. The greater goes first.
    pub pri: u8,
    /// The turn of the unit. At one priority the lower goes first.
    pub turn: u64,
}

impl UnitKey {
    // Whether `self` has the greater priority, or at one priority the lower turn.
    fn goes_first(self, other: UnitKey) -> bool
        ensures { result ≡ unit_key_precedes self other }
    {
        self.pri > other.pri || (self.pri == other.pri && self.turn < other.turn)
    }
}

impl HeapKey for UnitKey {
    ghost use Rattle.clutch_bucket.specs.Ranks.{unit_key_precedes};
    ghost use Rattle.clutch_bucket.specs.UnitOrder.{unit_order};

    ghost precedes = { unit_key_precedes };

    ghost order = { unit_order };
}

impl Tallied for UnitKey {
    fn before_by<L: Ledger>(&self, other: &Self, steps: &mut Steps<L>) -> bool {
        steps.tick();
        self.goes_first(*other)
    }
}

// What the arena holds for each group. The key is that of the unit where the unit has entries, and any otherwise.
#[derive(Clone, Copy)]
struct Ranked {
    key: UnitKey,
    group: u8,
}

impl Keyed<0> for Ranked {
    type Key = UnitKey;

    ghost use Rattle.clutch_bucket.specs.KeptRanks.{key_of_ranked};

    ghost key_of = { key_of_ranked };

    fn key(&self) -> UnitKey {
        self.key
    }
}

/// The keys of a lane's units that have entries, by group. Contracts see a list with the key of each group, and None where
/// the unit of the group has no entry.
#[derive(Drop)]
pub struct Ranks {
    keys: Vec<Option<UnitKey>>,
    // The slot of each group in the arena.
    slots: Vec<u32>,
    arena: Arena<Ranked>,
    // The slots of the groups that have a key.
    heap: Heap<0>,
}

impl Model for Ranks {
    ghost use Rattle.std.specs.Prelude.{List, Option};
    ghost use Rattle.clutch_bucket.specs.declared.ranks.UnitKey.{UnitKey};

    ghost Value = { List (Option UnitKey) };

    ghost use Rattle.clutch_bucket.specs.KeptRanks.{AreKept};

    ghost view = { λ r. r.keys.items };

    ghost invariant = { λ r. AreKept r.keys.items r.slots.items r.arena r.heap };
}

impl Ranks {
    /// Room for all groups, none of which has a key. No other call takes memory.
    pub fn new(alloc: Global, groups: u8) -> Result<Ranks, AllocError>
        ensures { IfOk result (λ made. made ≡ replicate groups None) }
    {
        let mut ranks = Ranks::empty(alloc)?;
        for group in 0..groups {
            ranks.add_group(group)?;
        }
        Ok(ranks)
    }

    // With no group.
    fn empty(alloc: Global) -> Result<Ranks, AllocError>
        ensures { IfOk result (λ made. made ≡ []) }
    {
        heap_laws();
        Ok(Ranks {
            keys: Vec::new(alloc),
            slots: Vec::new(alloc),
            arena: Arena::new(alloc)?,
            heap: Heap::new(),
        })
    }

    // Adds the next group, which has no key.
    fn add_group(&mut self, group: u8) -> Result<(), AllocError>
        requires { length self.old ≡ group }
        ensures { OnOk result (self.new ≡ self.old ++ (None ∷ [])) }
    {
        heap_laws();
        self.keys.reserve(1)?;
        self.slots.reserve(1)?;
        self.arena.reserve()?;
        let key = UnitKey { pri: 0, turn: 0 };
        let slot = self.arena.insert_reserved(Ranked { key, group });
        self.slots.push_reserved(slot);
        self.keys.push_reserved(None);
        Ok(())
    }

    /// The key of a group's unit, and None where the unit has no entry.
    pub fn get(&self, group: u8) -> Option<UnitKey>
        requires { group < length self.now }
        ensures { result ≡ slice_index_or self.now group None }
    {
        self.keys[group as usize]
    }

    /// Gives the unit of a group this key, whether it had one or not. The other units keep theirs.
    #[tactic(auto, using(crate::proofs::Slots::set_twice))]
    pub fn set<L: Ledger>(&mut self, group: u8, key: UnitKey, steps: &mut Steps<L>)
        requires { group < length self.old }
        ensures keys { self.new ≡ slice_set self.old group (Some key) }
        ensures ticks { steps.old ≤ steps.new }
    {
        self.clear(group, steps);
        self.enter(group, key, steps);
    }

    /// Takes the key from the unit of a group, if it had one. The other units keep theirs.
    pub fn clear<L: Ledger>(&mut self, group: u8, steps: &mut Steps<L>)
        requires { group < length self.old }
        ensures keys { self.new ≡ slice_set self.old group None }
        ensures ticks { steps.old ≤ steps.new }
    {
        heap_laws();
        if self.keys[group as usize].is_none() {
            return;
        }
        let slot = self.slots[group as usize];
        self.heap.remove(&mut self.arena, slot, steps);
        self.keys[group as usize] = None;
    }

    // Gives a key to the unit of a group that has none.
    fn enter<L: Ledger>(&mut self, group: u8, key: UnitKey, steps: &mut Steps<L>)
        requires group { group < length self.old }
        requires bare { slice_index_or self.old group None ≡ None }
        ensures keys { self.new ≡ slice_set self.old group (Some key) }
        ensures ticks { steps.old ≤ steps.new }
    {
        heap_laws();
        let slot = self.slots[group as usize];
        self.arena.replace(slot, Ranked { key, group });
        self.heap.push(&mut self.arena, slot, steps);
        self.keys[group as usize] = Some(key);
    }

    /// The group whose unit goes first, and None exactly where no unit has a key. No comparison is made.
    pub fn first(&self) -> Option<u8>
        ensures first { IfSome result (λ group. IsFirstUnit self.now group) }
        ensures none { IsNone result ↔ ((group : ℕ) → slice_index_or self.now group None ≡ None) }
    {
        heap_laws();
        let slot = self.heap.peek()?;
        Some(self.arena.get(slot).group)
    }
}

// What the heap keeps, as the laws of heaps say it.
fn heap_laws()
    ensures live { HeldAreLive 0 key_of_ranked unit_key_precedes }
    ensures empty { StandsWhenEmpty 0 key_of_ranked unit_key_precedes }
    ensures reserved { StaysWhereReserved 0 key_of_ranked unit_key_precedes }
    ensures inserted { StaysWhereInserted 0 key_of_ranked unit_key_precedes }
    ensures revalued { StaysWhereRevalued 0 key_of_ranked unit_key_precedes }
    ensures adds { AddsOneSlot 0 key_of_ranked unit_key_precedes }
    ensures takes { TakesOneSlot 0 key_of_ranked unit_key_precedes }
    ensures held { AddedIsHeld 0 key_of_ranked unit_key_precedes }
    ensures lacked { TakenIsLacked 0 key_of_ranked unit_key_precedes }
    ensures first { FirstIsLeast 0 key_of_ranked unit_key_precedes }
{
    heaps::held_are_live::<Ranked, 0>();
    heaps::stands_when_empty::<Ranked, 0>();
    heaps::stays_where_reserved::<Ranked, 0>();
    heaps::stays_where_inserted::<Ranked, 0>();
    heaps::stays_where_revalued::<Ranked, 0>();
    heaps::adds_one_slot::<Ranked, 0>();
    heaps::takes_one_slot::<Ranked, 0>();
    heaps::added_is_held::<Ranked, 0>();
    heaps::taken_is_lacked::<Ranked, 0>();
    heaps::first_is_least::<Ranked, 0>();
}
