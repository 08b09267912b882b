ghost use Rattle.std.specs.Prelude.{◌≡◌, ◌<◌};
ghost use Rattle.link_arena.specs.Arena.{IsLive};

use super::{LaneUnits, queue_laws};
use link_arena::{Arena, Links};
use pairing_heap::Steps;
use sched_base::{Bucket, Thread};
use std::alloc::Global;
use std::marker::Brand;
use std::process::Abort;
use std::sync::ledger::{Blank, Ledger};
use thread_queue::Item;

// One thread enters a lane of two groups, and is picked.
fn one_alone<R: Abort, L: Ledger>(rt: &R, alloc: Global, blank: Blank)
    requires name { blank.name ≡ L.name }
    requires parts { blank.parts ≡ L.parts }
    requires some { 0 < blank.parts }
{
    queue_laws();
    let mut steps = Steps::<L>::new(blank);
    let mut turns = 0;
    let mut lane = LaneUnits::new(alloc, Bucket::Df, 2).expect(rt, "room");
    let mut arena = Arena::new(alloc).expect(rt, "room");
    arena.reserve().expect(rt, "room");
    let slot = arena.insert_reserved(Item {
        thread: Thread::new(7, 1, Bucket::Df, 31, None, 0, 0),
        pri: 31,
        number: 0,
        arrival: 0,
    });
    lane.enter(&mut arena, slot, 3000, 10_000, &mut turns, &mut steps);
    assert_eq!(rt; lane.best(&arena), Some(slot));
    assert_eq!(rt; lane.top(), Some(44));
    assert_eq!(rt; (turns, lane.unit_len(1)), (1, 1));
    lane.remove(&mut arena, slot, true, &mut turns, &mut steps);
    assert_eq!(rt; lane.best(&arena), None);
    assert_eq!(rt; turns, 1);
    take_out(rt, &mut arena, slot);
    match arena.next_live(0) {
        None => arena.destroy_empty(),
        Some(_) => panic!(rt; "a slot is live"),
    }
}

fn take_out<R: Abort>(rt: &R, arena: &mut Arena<Item>, slot: u32)
    requires { IsLive arena.old slot }
{
    assert_eq!(rt; arena.links(0, slot), Links::NONE);
    assert_eq!(rt; arena.links(1, slot), Links::NONE);
    let Item {
        thread,
        pri: _,
        number: _,
        arrival: _,
    } = arena.remove(slot);
    let _facts = thread.into_facts();
}

#[test]
fn one_thread(rt: HostRuntime) {
    one_alone::<_, Brand>(&rt, rt.alloc(), Blank::new(1));
}
