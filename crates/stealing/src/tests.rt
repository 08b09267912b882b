ghost use Rattle.std.specs.Prelude.{◌≡◌, ◌<◌, None};
ghost use Rattle.link_arena.specs.Arena.{IsLive};
ghost use Rattle.stealing.specs.Foreign.{IsHeld, StandsIn};

use crate::Foreign;
use crate::laws::{pushed_is_held, stays_where_inserted, stays_where_reserved};
use link_arena::{Arena, Links};
use pairing_heap::Steps;
use sched_base::{Bucket, Thread};
use std::alloc::Global;
use std::marker::Brand;
use std::process::Abort;
use std::sync::ledger::{Blank, Ledger};
use thread_queue::Item;

// A thread that prefers a cluster, by its name, its bucket, its priority and its order number.
#[derive(Clone, Copy)]
struct Row {
    name: u32,
    prefer: u8,
    bucket: Bucket,
    pri: u8,
    number: i64,
}

fn item_of(row: Row) -> Item
    ensures unbound { result.thread.bound ≡ None }
    ensures prefer { result.thread.prefer ≡ row.prefer }
{
    Item {
        thread: Thread::new(row.name, 0, row.bucket, 31, None, row.prefer, 0),
        pri: row.pri,
        number: row.number,
        arrival: 0,
    }
}

// A thread comes into the arena, and its slot into the heap of the cluster that it prefers.
fn enter<R: Abort, L: Ledger>(
    rt: &R,
    arena: &mut Arena<Item>,
    foreign: &mut Foreign,
    row: Row,
    steps: &mut Steps<L>,
) -> u32
    requires stands { StandsIn arena.old foreign.old }
    ensures stands { StandsIn arena.new foreign.new }
    ensures held { IsHeld arena.new foreign.new result }
{
    stays_where_reserved();
    stays_where_inserted();
    pushed_is_held();
    assert!(rt; row.prefer < 8);
    arena.reserve().expect(rt, "room");
    let slot = arena.insert_reserved(item_of(row));
    foreign.push(arena, slot, steps);
    slot
}

// The slot that goes first of those that prefer a cluster leaves its heap: its thread's name.
fn leave<L: Ledger>(
    arena: &mut Arena<Item>,
    foreign: &mut Foreign,
    to: u8,
    steps: &mut Steps<L>,
) -> Option<u32>
    requires stands { StandsIn arena.old foreign.old }
    requires cluster { to < 8 }
    ensures stands { StandsIn arena.new foreign.new }
{
    let slot = foreign.best(to)?;
    foreign.remove(arena, slot, steps);
    if arena.is_live(slot) {
        Some(arena.get(slot).thread.facts().name)
    } else {
        None
    }
}

// Once no slot is in a heap, the threads leave the arena, and it ends.
fn end<R: Abort>(rt: &R, arena: Arena<Item>) {
    let mut arena = arena;
    for _ in 0..8 {
        let Some(slot) = arena.next_live(0) else {
            break;
        };
        take_out(rt, &mut arena, slot);
    }
    match arena.next_live(0) {
        None => arena.destroy_empty(),
        Some(_) => panic!(rt; "a slot is live"),
    }
}

fn take_out<R: Abort>(rt: &R, arena: &mut Arena<Item>, slot: u32)
    requires { IsLive arena.old slot }
{
    assert_eq!(rt; arena.links(0, slot), Links::NONE);
    assert_eq!(rt; arena.links(1, slot), Links::NONE);
    let Item {
        thread,
        pri: _,
        number: _,
        arrival: _,
    } = arena.remove(slot);
    let _facts = thread.into_facts();
}

fn row_of(name: u32, prefer: u8, bucket: Bucket, pri: u8, number: i64) -> Row {
    Row {
        name,
        prefer,
        bucket,
        pri,
        number,
    }
}

// By bucket, priority and number, with a removal from the middle; and then a clearing.
fn offers_in_order<R: Abort, L: Ledger>(rt: &R, alloc: Global, blank: Blank)
    requires name { blank.name ≡ L.name }
    requires parts { blank.parts ≡ L.parts }
    requires some { 0 < blank.parts }
{
    let mut steps = Steps::<L>::new(blank);
    let mut arena = Arena::new(alloc).expect(rt, "room");
    let mut foreign = Foreign::new();
    for row in [
        row_of(1, 1, Bucket::Df, 40, 0),
        row_of(2, 1, Bucket::Fg, 30, 1),
        row_of(3, 1, Bucket::Fg, 31, 3),
        row_of(4, 1, Bucket::Fg, 31, 2),
        row_of(5, 7, Bucket::Bg, 0, 4),
    ] {
        enter(rt, &mut arena, &mut foreign, row, &mut steps);
    }
    let slot = enter(
        rt,
        &mut arena,
        &mut foreign,
        row_of(6, 1, Bucket::Ini, 9, 5),
        &mut steps,
    );
    foreign.remove(&mut arena, slot, &mut steps);
    for name in [4, 3, 2] {
        assert_eq!(rt; leave(&mut arena, &mut foreign, 1, &mut steps), Some(name));
    }
    assert!(rt; foreign.best(1).is_some() && foreign.best(7).is_some());
    assert_eq!(rt; foreign.best(0), None);
    foreign.clear(&mut arena, &mut steps);
    assert!(rt; foreign.best(1).is_none() && foreign.best(7).is_none());
    end(rt, arena);
}

#[test]
fn who_is_offered(rt: HostRuntime) {
    offers_in_order::<_, Brand>(&rt, rt.alloc(), Blank::new(1));
}
