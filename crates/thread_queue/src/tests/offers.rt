ghost use Rattle.std.specs.Prelude.{◌≡◌};
ghost use Rattle.link_arena.specs.Arena.{IsLive};

use crate::Item;
use link_arena::{Arena, Links};
use pairing_heap::{Heap, laws as heaps};
use sched_base::{Bucket, Thread};
use std::alloc::Global;
use std::marker::Model;
use std::process::Abort;

// A heap that stands in its arena.
struct Offers {
    arena: Arena<Item>,
    heap: Heap<1>,
}

impl Model for Offers {
    ghost use Rattle.std.specs.Prelude.{Option, ℕ};
    ghost use Rattle.pairing_heap.specs.Heap.{Stands};
    ghost use Rattle.thread_queue.specs.Item.{foreign_key_of_item, foreign_precedes};

    ghost Value = { Option ℕ };

    ghost view = { λ offers. offers.heap };

    ghost invariant = { λ offers. Stands 1 foreign_key_of_item foreign_precedes offers.arena offers.heap };
}

// A thread of this name, bucket and priority.
fn item_of(name: u32, bucket: Bucket, pri: u8) -> Item {
    Item {
        thread: Thread::new(name, 0, bucket, 31, None, 0, 0),
        pri,
        number: 0,
        arrival: 0,
    }
}

// Ends an item: its thread's name.
fn end_item(item: Item) -> u32 {
    let Item {
        thread,
        pri: _,
        number: _,
        arrival: _,
    } = item;
    thread.into_facts().name
}

impl Offers {
    fn new<R: Abort>(rt: &R, alloc: Global) -> Offers {
        heaps::stands_when_empty::<Item, 1>();
        let arena = Arena::new(alloc).expect(rt, "room");
        Offers {
            arena,
            heap: Heap::new(),
        }
    }

    // A thread of this name, bucket and priority comes in.
    fn enter<R: Abort>(&mut self, rt: &R, name: u32, bucket: Bucket, pri: u8) {
        heaps::stays_where_reserved::<Item, 1>();
        heaps::stays_where_inserted::<Item, 1>();
        self.arena.reserve().expect(rt, "room");
        let slot = self.arena.insert_reserved(item_of(name, bucket, pri));
        self.heap.push_uncounted(&mut self.arena, slot);
    }

    // The first thread leaves the heap, by its slot: its name.
    fn withdraw(&mut self) -> Option<u32> {
        heaps::first_is_least::<Item, 1>();
        heaps::held_are_live::<Item, 1>();
        let slot = self.heap.peek()?;
        self.heap.remove_uncounted(&mut self.arena, slot);
        Some(self.arena.get(slot).thread.facts().name)
    }

    // The first thread leaves the heap: its name.
    fn take(&mut self) -> Option<u32> {
        heaps::first_is_least::<Item, 1>();
        heaps::held_are_live::<Item, 1>();
        let slot = self.heap.pop_uncounted(&mut self.arena)?;
        Some(self.arena.get(slot).thread.facts().name)
    }

    // Another thread takes the place of the first, which ends: its name.
    fn replace_first(&mut self, name: u32, bucket: Bucket, pri: u8) -> Option<u32> {
        heaps::first_is_least::<Item, 1>();
        let slot = self.heap.peek()?;
        let item = item_of(name, bucket, pri);
        Some(end_item(self.heap.rekey_uncounted(&mut self.arena, slot, item)))
    }

    // Once the heap is empty, the threads leave the arena, and it ends.
    fn end<R: Abort>(self, rt: &R) {
        let Offers { mut arena, heap } = self;
        assert!(rt; heap.is_empty());
        for _ in 0..8 {
            let Some(slot) = arena.next_live(0) else {
                break;
            };
            take_out(rt, &mut arena, slot);
        }
        match arena.next_live(0) {
            None => arena.destroy_empty(),
            Some(_) => panic!(rt; "a slot is live"),
        }
    }
}

fn take_out<R: Abort>(rt: &R, arena: &mut Arena<Item>, slot: u32)
    requires { IsLive arena.old slot }
{
    assert_eq!(rt; arena.links(0, slot), Links::NONE);
    assert_eq!(rt; arena.links(1, slot), Links::NONE);
    end_item(arena.remove(slot));
}

#[test]
fn the_lower_bucket_goes_first(rt: HostRuntime) {
    let mut offers = Offers::new(&rt, rt.alloc());
    offers.enter(&rt, 1, Bucket::Df, 31);
    offers.enter(&rt, 2, Bucket::Fg, 30);
    offers.enter(&rt, 3, Bucket::Fg, 31);
    offers.enter(&rt, 4, Bucket::Ini, 40);
    assert_eq!(rt; offers.withdraw(), Some(3));
    assert_eq!(rt; offers.replace_first(5, Bucket::Ut, 31), Some(2));
    assert_eq!(rt; offers.take(), Some(4));
    assert_eq!(rt; offers.take(), Some(1));
    assert_eq!(rt; offers.take(), Some(5));
    assert_eq!(rt; offers.take(), None);
    offers.end(&rt);
}
