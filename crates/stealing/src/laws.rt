//! Laws of the heaps of foreign threads, for whatever holds an arena. Each is the contract of a function that does nothing.

ghost use Rattle.stealing.specs.Laws.{HasListedSlot, LacksNewArrival, LacksWhereNone, OffersByUnbound, PushedIsHeld, StaysWhereInserted, StaysWhereQueuesChange, StaysWhereRemoved, StaysWhereReserved, StaysWhereRevalued, StaysWhereSettled, StaysWhereSlotsStay};

use pairing_heap::laws as heaps;
use thread_queue::Item;

/// The heaps stay, and stand for the same entries, where their slots keep their items and their links of set 1.
pub fn stays_where_slots_stay()
    ensures { StaysWhereSlotsStay }
{
    heaps::stays_where_slots_stay::<Item, 1>();
}

/// The heaps stay where an item comes into the arena, and have not its slot.
pub fn stays_where_inserted()
    ensures { StaysWhereInserted }
{
    heaps::held_are_live::<Item, 1>();
    heaps::stays_where_slots_stay::<Item, 1>();
}

/// The heaps stay where the item of a slot that none of them has leaves the arena.
pub fn stays_where_removed()
    ensures { StaysWhereRemoved }
{
    heaps::stays_where_slots_stay::<Item, 1>();
}

/// The heaps stay where a slot that none of them has gets another item.
pub fn stays_where_revalued()
    ensures { StaysWhereRevalued }
{
    heaps::stays_where_slots_stay::<Item, 1>();
}

/// The heaps stay where a slot that none of them has is settled in its queue.
pub fn stays_where_settled()
    ensures { StaysWhereSettled }
{
    heaps::stays_where_slots_stay::<Item, 1>();
}

/// The heaps stay where the arena gets room.
pub fn stays_where_reserved()
    ensures { StaysWhereReserved }
{
    heaps::stays_where_slots_stay::<Item, 1>();
}

/// The heaps stay where only links of set 0 change, as by the calls on queues.
pub fn stays_where_queues_change()
    ensures { StaysWhereQueuesChange }
{
    heaps::stays_where_slots_stay::<Item, 1>();
}

/// The heaps stand for every list with the same unbound entries, in whatever order, as where a bound entry comes or goes.
pub fn offers_by_unbound()
    ensures { OffersByUnbound }
{}

/// The heap of its thread's preferred cluster has the slot that was pushed.
pub fn pushed_is_held()
    ensures { PushedIsHeld }
{}

/// Where the heaps stand for no entry, as after `clear`, none of them has a slot.
pub fn lacks_where_none()
    ensures { LacksWhereNone }
{
    heaps::held_are_live::<Item, 1>();
}

/// No heap has the slot of an item whose arrival is that of no entry.
pub fn lacks_new_arrival()
    ensures { LacksNewArrival }
{}

/// A slot whose item is an entry that prefers a cluster stands in that cluster's heap, where no other slot's item has its
/// arrival.
pub fn has_listed_slot()
    ensures { HasListedSlot }
{}
