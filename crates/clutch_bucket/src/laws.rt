//! Laws of lanes, for whatever holds an arena and several lanes. Each is the contract of a function that does nothing.

ghost use Rattle.clutch_bucket.specs.Laws.{BoundLanesArePriced, LanesStand, LanesStay};

use pairing_heap::laws as heaps;
use thread_queue::{Item, laws as queues};

/// A lane stands where its slots stay in their queues, with their items.
pub fn lanes_stand()
    ensures { LanesStand }
{
    heaps::first_is_least::<Item, 0>();
}

/// A lane follows a cluster's queue still where its slots stay in their queues, with their items, and the queue keeps the lane's
/// clutch buckets.
pub fn lanes_stay()
    ensures { LanesStay }
{
    heaps::first_is_least::<Item, 0>();
}

/// Where the queue of a bound lane other than the user interface's is priced anew by `refresh_queue`, it holds the lane's entries priced
/// anew, and as many priorities change by the queue as by the lane's entries.
pub fn bound_lanes_are_priced()
    ensures { BoundLanesArePriced }
{
    heaps::held_are_live::<Item, 0>();
    queues::slots_stand_once();
    queues::walk_counts_slots();
}
