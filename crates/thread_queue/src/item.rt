ghost use Rattle.std.specs.Prelude.{◌≡◌};

use pairing_heap::{Counted, HeapKey, Keyed, Steps, Tallied};
use sched_base::Thread;
use std::sync::ledger::Ledger;

/// What the arena holds: a thread in a queue. Heaps of link set 0 order items as their unit does, by `ItemKey`, and heaps of
/// link set 1 as an offer to another cluster does, by `ForeignKey`.
pub struct Item {
    pub thread: Thread,
    /// The priority in the queue. The greater goes first.
    pub pri: u8,
    /// The order number. At one priority the lower goes first.
    pub number: i64,
    /// When the thread arrived among all.
    pub arrival: u64,
}

/// By what the items of a unit are ordered.
#[derive(Clone, Copy, Debug, PartialEq, Eq)]
pub struct ItemKey {
    pub pri: u8,
    pub number: i64,
}

impl ItemKey {
    ghost use Rattle.thread_queue.specs.Item.{key_precedes};

    // Whether `self` has the greater priority, or at one priority the lower number.
    fn goes_first(self, other: ItemKey) -> bool
        ensures { result ≡ key_precedes self other }
    {
        self.pri > other.pri || (self.pri == other.pri && self.number < other.number)
    }
}

impl HeapKey for ItemKey {
    ghost use Rattle.thread_queue.specs.Item.{key_precedes};
    ghost use Rattle.thread_queue.specs.KeyOrder.{key_order};

    ghost precedes = { key_precedes };

    ghost order = { key_order };
}

impl<L: Ledger> Counted<L> for ItemKey {
    fn before(&self, other: &Self, steps: &mut Steps<L>) -> bool {
        steps.tick();
        self.goes_first(*other)
    }
}

impl Keyed<0> for Item {
    type Key = ItemKey;

    ghost use Rattle.thread_queue.specs.Item.{key_of_item};

    ghost key_of = { key_of_item };

    fn key(&self) -> ItemKey {
        let Item { pri, number, .. } = self;
        ItemKey {
            pri: *pri,
            number: *number,
        }
    }
}

/// By what the items of threads that prefer another cluster are ordered.
#[derive(Clone, Copy, Debug, PartialEq, Eq)]
pub struct ForeignKey {
    /// The index of the thread's bucket, below 6. The lower goes first.
    pub bucket: u8,
    /// The priority in the queue. In one bucket the greater goes first.
    pub pri: u8,
    /// The order number. At one priority the lower goes first.
    pub number: i64,
}

impl ForeignKey {
    // The key among items of one bucket.
    fn unit_key(self) -> ItemKey
        ensures { result ≡ record { pri = self.pri; number = self.number } }
    {
        ItemKey {
            pri: self.pri,
            number: self.number,
        }
    }
}

impl HeapKey for ForeignKey {
    ghost use Rattle.thread_queue.specs.Item.{foreign_precedes};
    ghost use Rattle.thread_queue.specs.KeyOrder.{foreign_order};

    ghost precedes = { foreign_precedes };

    ghost order = { foreign_order };
}

impl Tallied for ForeignKey {
    fn before_by<L: Ledger>(&self, other: &Self, steps: &mut Steps<L>) -> bool {
        steps.tick();
        if self.bucket != other.bucket {
            self.bucket < other.bucket
        } else {
            self.unit_key().goes_first(other.unit_key())
        }
    }
}

impl Keyed<1> for Item {
    type Key = ForeignKey;

    ghost use Rattle.thread_queue.specs.Item.{foreign_key_of_item};

    ghost key_of = { foreign_key_of_item };

    fn key(&self) -> ForeignKey {
        ForeignKey {
            bucket: self.thread.facts().bucket.index(),
            pri: self.pri,
            number: self.number,
        }
    }
}
