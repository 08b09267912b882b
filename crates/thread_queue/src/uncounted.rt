//! The calls on a queue for who counts no comparisons.
ghost use Rattle.std.specs.Prelude.{◌≡◌, ◌<◌, Some};
ghost use Rattle.link_arena.specs.Arena.{Arena as Map, IsLive, value_at};
ghost use Rattle.thread_queue.specs.declared.item.Item.{Item as Stored};
ghost use Rattle.thread_queue.specs.Queue.{StandsIn, HasSlot, LacksSlot, Pushes, Removes, Settles, StaysInPlace};
ghost use Rattle.thread_queue.specs.Uncounted.{CanChange, Changes};

use crate::{Item, ThreadQueue};
use link_arena::Arena;
use pairing_heap::Steps;
use std::marker::Brand;
use std::sync::ledger::{Blank, Ledger};

/// What is done with a slot, as the counted call of that name does it.
#[derive(Clone, Copy)]
enum Change {
    Push,
    Remove,
    Settle { usage: u32, seen: u64, pri: u8 },
}

impl ThreadQueue {
    /// As `push`, with a counter that nobody reads.
    pub fn push_uncounted(&mut self, arena: &mut Arena<Item>, slot: u32)
        requires stands { StandsIn arena.old self.old }
        requires live { IsLive arena.old slot }
        requires lacks { LacksSlot arena.old self.old slot }
        requires room { self.old.count < 4096 }
        ensures pushes { Pushes arena.old arena.new self.old self.new slot }
    {
        make_change(self, arena, slot, Change::Push);
    }

    /// As `remove`, with a counter that nobody reads.
    pub fn remove_uncounted(&mut self, arena: &mut Arena<Item>, slot: u32)
        requires stands { StandsIn arena.old self.old }
        requires held { HasSlot arena.old self.old slot }
        ensures removes { Removes arena.old arena.new self.old self.new slot }
    {
        make_change(self, arena, slot, Change::Remove);
    }

    /// As `settle`, with a counter that nobody reads.
    pub fn settle_uncounted(
        &mut self,
        arena: &mut Arena<Item>,
        slot: u32,
        usage: u32,
        seen: u64,
        pri: u8,
    )
        requires stands { StandsIn arena.old self.old }
        requires held { HasSlot arena.old self.old slot }
        ensures settles { Settles arena.old arena.new self.old self.new slot usage seen pri }
        ensures steady { (item : Stored) → value_at arena.old slot ≡ Some item → item.pri ≡ pri → StaysInPlace arena.old arena.new self.old self.new }
    {
        make_change(self, arena, slot, Change::Settle { usage, seen, pri });
    }
}

// Changes a queue at a slot, with a counter of its own.
fn make_change(queue: &mut ThreadQueue, arena: &mut Arena<Item>, slot: u32, what: Change)
    requires stands { StandsIn arena.old queue.old }
    requires can { CanChange arena.old queue.old slot what }
    ensures { Changes arena.old arena.new queue.old queue.new slot what }
{
    make_change_by::<Brand>(queue, arena, slot, what, Blank::new(1));
}

// Changes a queue at a slot, with a counter by a new ledger. Since all uncounted calls come here, and from here to each
// counted one, a counted call that went by an uncounted one would not end.
fn make_change_by<L: Ledger>(
    queue: &mut ThreadQueue,
    arena: &mut Arena<Item>,
    slot: u32,
    what: Change,
    blank: Blank,
)
    requires name { blank.name ≡ L.name }
    requires parts { blank.parts ≡ L.parts }
    requires some { 0 < blank.parts }
    requires stands { StandsIn arena.old queue.old }
    requires can { CanChange arena.old queue.old slot what }
    ensures { Changes arena.old arena.new queue.old queue.new slot what }
{
    let mut steps = Steps::<L>::new(blank);
    match what {
        Change::Push => queue.push(arena, slot, &mut steps),
        Change::Remove => queue.remove(arena, slot, &mut steps),
        Change::Settle { usage, seen, pri } => {
            queue.settle(arena, slot, usage, seen, pri, &mut steps)
        }
    }
}
