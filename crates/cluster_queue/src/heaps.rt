//! The heaps of a cluster's queue.

ghost use Rattle.std.specs.Prelude.{◌≡◌, ◌≤◌, IfOk, [], vec_capacity};
ghost use Rattle.flat_policy.specs.Policy.Queue.{empty_flat};
ghost use Rattle.link_arena.specs.Arena.{Arena as Map};
ghost use Rattle.pairing_heap.specs.Laws.{HeldAreLive};
ghost use Rattle.thread_queue.specs.Item.{key_of_item, key_precedes};
ghost use Rattle.thread_queue.specs.Laws.{StaysWhereInserted, StaysWhereRemoved, StaysWhereReserved};
ghost use Rattle.stealing.specs.Laws.{StaysWhereInserted as ForeignWhereInserted, StaysWhereRemoved as ForeignWhereRemoved, StaysWhereReserved as ForeignWhereReserved};
ghost use Rattle.clutch_bucket.specs.Laws.{LanesStay};
ghost use Rattle.thread_queue.specs.declared.item.Item.{Item as Stored};
ghost use Rattle.cluster_queue.specs.Heaps.{HeapsFollow};

mod choosing;
mod entering;
mod filling;
mod leaving;
mod pricing;
mod refreshing;
mod uncounted;

use clutch_bucket::{LaneUnits, laws as lanes};
use pairing_heap::laws as heaps;
use sched_base::Bucket;
use sched_base::limits::{BUCKET_COUNT, MOST_GROUPS};
use std::alloc::{AllocError, Global};
use stealing::{Foreign, laws as foreign};
use thread_queue::{Item, ThreadQueue, laws as queues};

/// The units of each unbound lane and the queue of each bound lane, by bucket index, whose entries are slots of an arena of
/// items; and the heaps of the unbound threads that other clusters may take.
#[derive(Drop)]
pub struct Heaps {
    pub lanes: [LaneUnits; BUCKET_COUNT],
    pub bound: [ThreadQueue; BUCKET_COUNT],
    pub foreign: Foreign,
    // Room for the slots of one bound queue, for a refresh.
    pub slots: Vec<u32>,
}

impl Heaps {
    /// Empty heaps for so many groups, with room for a list of 4096 slots.
    pub fn new(alloc: Global, groups: u8) -> Result<Heaps, AllocError>
        requires { groups ≤ MOST_GROUPS }
        ensures follows { IfOk result (λ made. (arena : Map Stored) → arena ≡ record { nodes = []; spare = 0 } → HeapsFollow arena made groups (empty_flat groups)) }
        ensures room { IfOk result (λ made. 4096 ≤ vec_capacity made.slots) }
    {
        let ui = LaneUnits::new(alloc, Bucket::Ui, groups)?;
        let fg = LaneUnits::new(alloc, Bucket::Fg, groups)?;
        let ini = LaneUnits::new(alloc, Bucket::Ini, groups)?;
        let df = LaneUnits::new(alloc, Bucket::Df, groups)?;
        let ut = LaneUnits::new(alloc, Bucket::Ut, groups)?;
        let bg = LaneUnits::new(alloc, Bucket::Bg, groups)?;
        let mut slots = Vec::new(alloc);
        slots.reserve(4096)?;
        Ok(Heaps {
            lanes: [ui, fg, ini, df, ut, bg],
            bound: [
                ThreadQueue::new(),
                ThreadQueue::new(),
                ThreadQueue::new(),
                ThreadQueue::new(),
                ThreadQueue::new(),
                ThreadQueue::new(),
            ],
            foreign: Foreign::new(),
            slots,
        })
    }
}

// What stays of the heaps where an item comes into the arena or leaves it, and where that gets room, as the laws say it.
pub fn arena_laws()
    ensures inserted { StaysWhereInserted }
    ensures removed { StaysWhereRemoved }
    ensures reserved { StaysWhereReserved }
    ensures foreign_inserted { ForeignWhereInserted }
    ensures foreign_removed { ForeignWhereRemoved }
    ensures foreign_reserved { ForeignWhereReserved }
    ensures stay { LanesStay }
    ensures live { HeldAreLive 0 key_of_item key_precedes }
{
    queues::stays_where_inserted();
    queues::stays_where_removed();
    queues::stays_where_reserved();
    foreign::stays_where_inserted();
    foreign::stays_where_removed();
    foreign::stays_where_reserved();
    lanes::lanes_stay();
    heaps::held_are_live::<Item, 0>();
}
