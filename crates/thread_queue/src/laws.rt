//! Laws of queues, for whatever holds an arena. Each is the contract of a function that does nothing.

ghost use Rattle.thread_queue.specs.Laws.{SlotsAreLive, WalkBeginsWithFirst, WalkCountsSlots, StaysWhereSlotsStay, StaysWhereInserted, StaysWhereRemoved, FirstIsChosen, ForeignKeysOrderEntries, ItemKeysOrderEntries, SlotsStandOnce, StaysWhereReserved, StaysWhereOtherSetChanges, StaysWhereRevalued, StaysWhereKeyStays, PushedIsHeld, RemovedIsLacked, PushedStaysApart, RemovedStaysApart, SettledStaysApart, StaysWhereCleared};

use crate::Item;
use pairing_heap::laws as heaps;

/// Each slot of a queue holds an item.
pub fn slots_are_live()
    ensures { SlotsAreLive }
{
    heaps::held_are_live::<Item, 0>();
}

/// A queue stays where its slots keep their keys and their links.
pub fn stays_where_slots_stay()
    ensures { StaysWhereSlotsStay }
{
    heaps::stays_where_slots_stay::<Item, 0>();
}

/// A queue stays where an item comes into the arena, and it has not the item's slot.
pub fn stays_where_inserted()
    ensures { StaysWhereInserted }
{
    heaps::stays_where_inserted::<Item, 0>();
}

/// A queue that has not the slot stays where the slot's item leaves the arena.
pub fn stays_where_removed()
    ensures { StaysWhereRemoved }
{
    heaps::stays_where_removed::<Item, 0>();
}

/// The first entry of a queue is, among all its entries, the one that no other precedes.
pub fn first_is_chosen()
    ensures { FirstIsChosen }
{}

/// Keys of link set 0 go as the entries of one unit do.
pub fn item_keys_order_entries()
    ensures { ItemKeysOrderEntries }
{}

/// Keys of link set 1 go as the entries that prefer another cluster do in an offer to it.
pub fn foreign_keys_order_entries()
    ensures { ForeignKeysOrderEntries }
{}

/// No slot stands twice in a queue.
pub fn slots_stand_once()
    ensures { SlotsStandOnce }
{
    heaps::slots_stand_once::<Item, 0>();
}

/// A walk by `next` begins with what `first` gives.
pub fn walk_begins_with_first()
    ensures { WalkBeginsWithFirst }
{
    heaps::walk_begins_with_first::<Item, 0>();
}

/// A walk by `next` comes to each slot of a queue once, and to no other.
pub fn walk_counts_slots()
    ensures { WalkCountsSlots }
{
    heaps::walk_counts_slots::<Item, 0>();
}

/// A queue stays where the arena gets room.
pub fn stays_where_reserved()
    ensures { StaysWhereReserved }
{
    heaps::stays_where_reserved::<Item, 0>();
}

/// A queue stays where only links of set 1 change, as by the calls on heaps of that set.
pub fn stays_where_other_set_changes()
    ensures { StaysWhereOtherSetChanges }
{
    heaps::stays_where_other_set_changes::<Item, 0>();
}

/// A queue that has not the slot stays where the slot gets another item.
pub fn stays_where_revalued()
    ensures { StaysWhereRevalued }
{
    heaps::stays_where_revalued::<Item, 0>();
}

/// A queue stays where a slot gets another item of the same priority and number.
pub fn stays_where_key_stays()
    ensures { StaysWhereKeyStays }
{
    heaps::stays_where_key_stays::<Item, 0>();
}

/// A queue has the slot that was pushed.
pub fn pushed_is_held()
    ensures { PushedIsHeld }
{
    heaps::added_is_held::<Item, 0>();
}

/// A queue has not the slot that was removed.
pub fn removed_is_lacked()
    ensures { RemovedIsLacked }
{
    heaps::taken_is_lacked::<Item, 0>();
}

/// Two queues share no slot still where a slot that the other lacks is pushed.
pub fn pushed_stays_apart()
    ensures { PushedStaysApart }
{
    heaps::added_stays_apart::<Item, 0>();
}

/// Two queues share no slot still where a slot of the one is removed.
pub fn removed_stays_apart()
    ensures { RemovedStaysApart }
{
    heaps::taken_stays_apart::<Item, 0>();
}

/// Two queues share no slot still where a slot of the one is settled.
pub fn settled_stays_apart()
    ensures { SettledStaysApart }
{
    heaps::rekeyed_stays_apart::<Item, 0>();
}

/// A queue that shares no slot with another stays where that is cleared.
pub fn stays_where_cleared()
    ensures { StaysWhereCleared }
{
    heaps::stays_where_cleared::<Item, 0>();
}
