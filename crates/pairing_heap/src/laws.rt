//! Laws of heaps, for whatever holds an arena. Each is the contract of a function that does nothing.

ghost use Rattle.pairing_heap.specs.Laws.{HeldAreLive, StandsWhenEmpty, WalkBeginsWithFirst, WalkCountsSlots, SlotsStandOnce, StaysWhereSlotsStay, StaysWhereReserved, StaysWhereInserted, StaysWhereRemoved, StaysWhereRevalued, StaysWhereOtherSetChanges, AddsOneSlot, TakesOneSlot, AddedIsHeld, TakenIsLacked, RekeysNoSlot, StaysWhereKeyStays, AddsOnePair, TakesOnePair, RekeysNoPair, RekeysWherePushedAgain, RekeysWhereKeyStays, FirstIsLeast, AddedStaysApart, TakenStaysApart, RekeyedStaysApart, StaysWhereOtherSetRekeys, StaysWhereCleared};

use crate::{HeapKey, Keyed};

/// Each slot of a heap holds a value.
pub fn held_are_live<V: Keyed<K>, const K: usize>()
    ensures { HeldAreLive K V.key_of V.Key.precedes }
{}

/// The empty heap stands in every arena.
pub fn stands_when_empty<V: Keyed<K>, const K: usize>()
    ensures { StandsWhenEmpty K V.key_of V.Key.precedes }
{}

/// No slot stands twice in a heap.
pub fn slots_stand_once<V: Keyed<K>, const K: usize>()
    ensures { SlotsStandOnce K V.key_of V.Key.precedes }
{}

/// A heap stays where its slots keep their keys and their links.
pub fn stays_where_slots_stay<V: Keyed<K>, const K: usize>()
    ensures { StaysWhereSlotsStay K V.key_of V.Key.precedes }
{}

/// A heap stays where the arena gets room.
pub fn stays_where_reserved<V: Keyed<K>, const K: usize>()
    ensures { StaysWhereReserved K V.key_of V.Key.precedes }
{}

/// A heap stays where a value comes into the arena, and has not its slot.
pub fn stays_where_inserted<V: Keyed<K>, const K: usize>()
    ensures { StaysWhereInserted K V.key_of V.Key.precedes }
{}

/// A heap that has not the slot stays where the slot's value leaves the arena.
pub fn stays_where_removed<V: Keyed<K>, const K: usize>()
    ensures { StaysWhereRemoved K V.key_of V.Key.precedes }
{}

/// A heap that has not the slot stays where the slot gets another value.
pub fn stays_where_revalued<V: Keyed<K>, const K: usize>()
    ensures { StaysWhereRevalued K V.key_of V.Key.precedes }
{}

/// A heap stays where only links of the other set change, as by the calls on heaps of that set.
pub fn stays_where_other_set_changes<V: Keyed<K>, const K: usize>()
    ensures { StaysWhereOtherSetChanges K V.key_of V.Key.precedes }
{}

/// Where a pair comes in, its slot stands once more in the heap, and each other slot as often.
pub fn adds_one_slot<V: Keyed<K>, const K: usize>()
    ensures { AddsOneSlot K V.key_of V.Key.precedes }
{}

/// Where a pair goes out, its slot stands in the heap no more, and each other slot as often.
pub fn takes_one_slot<V: Keyed<K>, const K: usize>()
    ensures { TakesOneSlot K V.key_of V.Key.precedes }
{}

/// A heap has the slot of a pair that came in.
pub fn added_is_held<V: Keyed<K>, const K: usize>()
    ensures { AddedIsHeld K V.key_of V.Key.precedes }
{}

/// A heap has not the slot of a pair that went out.
pub fn taken_is_lacked<V: Keyed<K>, const K: usize>()
    ensures { TakenIsLacked K V.key_of V.Key.precedes }
{}

/// Where a slot gets another value, each slot stands in the heap as often.
pub fn rekeys_no_slot<V: Keyed<K>, const K: usize>()
    ensures { RekeysNoSlot K V.key_of V.Key.precedes }
{}

/// A heap stays where a slot gets another value with the same key.
pub fn stays_where_key_stays<V: Keyed<K>, const K: usize>()
    ensures { StaysWhereKeyStays K V.key_of V.Key.precedes }
{}

/// Where a pair comes in, the heap has one pair more.
pub fn adds_one_pair<V: Keyed<K>, const K: usize>()
    ensures { AddsOnePair K V.key_of V.Key.precedes }
{}

/// Where a pair goes out, the heap has one pair less.
pub fn takes_one_pair<V: Keyed<K>, const K: usize>()
    ensures { TakesOnePair K V.key_of V.Key.precedes }
{}

/// Where a slot gets another value, the heap has as many pairs.
pub fn rekeys_no_pair<V: Keyed<K>, const K: usize>()
    ensures { RekeysNoPair K V.key_of V.Key.precedes }
{}

/// A slot that is taken out, is written in place, and is pushed again is rekeyed.
pub fn rekeys_where_pushed_again<V: Keyed<K>, const K: usize>()
    ensures { RekeysWherePushedAgain K V.key_of V.Key.precedes }
{}

/// A slot that is written in place, and keeps its key, is rekeyed where it stands.
pub fn rekeys_where_key_stays<V: Keyed<K>, const K: usize>()
    ensures { RekeysWhereKeyStays K V.key_of V.Key.precedes }
{}

/// The first slot of a heap is one whose key no other precedes, and there is none exactly where the heap is empty.
pub fn first_is_least<V: Keyed<K>, const K: usize>()
    ensures { FirstIsLeast K V.key_of V.Key.precedes }
{}

/// A walk by `next` begins with what `peek` gives.
pub fn walk_begins_with_first<V: Keyed<K>, const K: usize>()
    ensures { WalkBeginsWithFirst K V.key_of V.Key.precedes }
{}

/// A walk by `next` comes to each slot of a heap once, and to no other.
pub fn walk_counts_slots<V: Keyed<K>, const K: usize>()
    ensures { WalkCountsSlots K V.key_of V.Key.precedes }
{}

/// Two heaps share no slot still where a slot that the other lacks comes into the one.
pub fn added_stays_apart<V: Keyed<K>, const K: usize>()
    ensures { AddedStaysApart K V.key_of V.Key.precedes }
{}

/// Two heaps share no slot still where a slot goes out of the one.
pub fn taken_stays_apart<V: Keyed<K>, const K: usize>()
    ensures { TakenStaysApart K V.key_of V.Key.precedes }
{}

/// Two heaps share no slot still where a slot of the one gets another value.
pub fn rekeyed_stays_apart<V: Keyed<K>, const K: usize>()
    ensures { RekeyedStaysApart K V.key_of V.Key.precedes }
{}

/// A heap stays where a heap of the other set is rekeyed, unless the slot is in it and gets another key for it.
pub fn stays_where_other_set_rekeys<V: Keyed<K>, const K: usize>()
    ensures { StaysWhereOtherSetRekeys K V.key_of V.Key.precedes }
{}

/// A heap that shares no slot with another stays where that is cleared.
pub fn stays_where_cleared<V: Keyed<K>, const K: usize>()
    ensures { StaysWhereCleared K V.key_of V.Key.precedes }
{}
