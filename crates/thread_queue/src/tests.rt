ghost use Rattle.link_arena.specs.Arena.{IsLive};

mod offers;

use crate::laws::{stays_where_inserted, stays_where_reserved};
use crate::{Item, ThreadQueue};
use link_arena::{Arena, Links};
use sched_base::{Bucket, Thread};
use std::alloc::Global;
use std::marker::Model;
use std::process::Abort;

// A queue that stands in its arena.
struct Bench {
    arena: Arena<Item>,
    queue: ThreadQueue,
}

impl Model for Bench {
    ghost use Rattle.std.specs.Prelude.{ℕ};
    ghost use Rattle.thread_queue.specs.Queue.{StandsIn};

    ghost Value = { ℕ };

    ghost view = { λ bench. bench.queue.count };

    ghost invariant = { λ bench. StandsIn bench.arena bench.queue };
}

impl Bench {
    fn new<R: Abort>(rt: &R, alloc: Global) -> Bench {
        let arena = Arena::new(alloc).expect(rt, "room");
        Bench {
            arena,
            queue: ThreadQueue::new(),
        }
    }

    // A thread of this name, priority and order number enters.
    fn enter<R: Abort>(&mut self, rt: &R, row: (u32, u8, i64)) {
        stays_where_reserved();
        stays_where_inserted();
        assert!(rt; self.queue.len() < 4096);
        self.arena.reserve().expect(rt, "room");
        let (name, pri, number) = row;
        let slot = self.arena.insert_reserved(Item {
            thread: Thread::new(name, 0, Bucket::Fg, 31, None, 0, 0),
            pri,
            number,
            arrival: 0,
        });
        self.queue.push_uncounted(&mut self.arena, slot);
    }

    // The first thread leaves the queue: its name.
    fn leave(&mut self) -> Option<u32> {
        let slot = self.queue.first()?;
        let name = self.arena.get(slot).thread.facts().name;
        self.queue.remove_uncounted(&mut self.arena, slot);
        Some(name)
    }

    // The first thread is settled, with another priority.
    fn settle_first(&mut self, pri: u8) {
        if let Some(slot) = self.queue.first() {
            self.queue
                .settle_uncounted(&mut self.arena, slot, 5, 9, pri);
        }
    }

    // The slots of a walk over the queue.
    fn slots<R: Abort>(&self, rt: &R, alloc: Global) -> Vec<u32> {
        let mut slots = Vec::new(alloc);
        slots.reserve(self.queue.len() as usize).expect(rt, "room");
        self.queue.list(&self.arena, &mut slots);
        slots
    }

    // Once no slot is queued, the threads leave the arena, and it ends.
    fn end<R: Abort>(self, rt: &R) {
        let Bench {
            mut arena,
            queue: _,
        } = self;
        for _ in 0..8 {
            let Some(slot) = arena.next_live(0) else {
                break;
            };
            take_out(rt, &mut arena, slot);
        }
        match arena.next_live(0) {
            None => arena.destroy_empty(),
            Some(_) => panic!(rt; "a slot is live"),
        }
    }
}

fn take_out<R: Abort>(rt: &R, arena: &mut Arena<Item>, slot: u32)
    requires { IsLive arena.old slot }
{
    assert_eq!(rt; arena.links(0, slot), Links::NONE);
    assert_eq!(rt; arena.links(1, slot), Links::NONE);
    let Item {
        thread,
        pri: _,
        number: _,
        arrival: _,
    } = arena.remove(slot);
    let _facts = thread.into_facts();
}

// Three threads, by name, priority and order number.
#[derive(Drop)]
struct Row {
    items: [(u32, u8, i64); 3],
    // The priority that the first gets before they leave.
    settled: Option<u8>,
    // Who leaves, in order.
    wanted: [u32; 3],
}

fn row_of(items: [(u32, u8, i64); 3], settled: Option<u8>, wanted: [u32; 3]) -> Row {
    Row {
        items,
        settled,
        wanted,
    }
}

// Who leaves. No comparison is counted, so nothing here is generic in a ledger.
fn run<R: Abort>(rt: &R, alloc: Global, row: &Row) -> [Option<u32>; 4] {
    let mut bench = Bench::new(rt, alloc);
    for item in row.items {
        bench.enter(rt, item);
    }
    if let Some(pri) = row.settled {
        bench.settle_first(pri);
    }
    let slots = bench.slots(rt, alloc);
    assert_eq!(rt; slots.len(), 3);
    assert!(rt; slots.contains(&0) && slots.contains(&1) && slots.contains(&2));
    let mut names = [None; 4];
    for name in names.iter_mut() {
        *name = bench.leave();
    }
    bench.end(rt);
    names
}

#[test]
fn who_goes_first(rt: HostRuntime) {
    let rows = [
        // The greater priority first.
        row_of([(1, 30, 0), (2, 32, 1), (3, 31, 2)], None, [2, 3, 1]),
        // At one priority the lower number, whatever the slots: the first thread entered again after the second.
        row_of([(1, 31, 2), (2, 31, 1), (3, 31, 3)], None, [2, 1, 3]),
        // Who entered at the head goes before all at the tail, the last such first.
        row_of([(1, 31, 0), (2, 31, -2), (3, 31, -3)], None, [3, 2, 1]),
        // A lower priority goes back, and at a greater one the first stays first.
        row_of([(1, 31, 5), (2, 31, 3), (3, 30, 1)], Some(30), [1, 3, 2]),
        row_of([(1, 31, 5), (2, 31, 3), (3, 31, 8)], Some(127), [2, 1, 3]),
    ];
    for row in rows {
        let [a, b, c] = row.wanted;
        assert_eq!(rt;
            run(&rt, rt.alloc(), &row),
            [Some(a), Some(b), Some(c), None]
        );
    }
}
