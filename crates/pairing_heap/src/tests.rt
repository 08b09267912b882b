ghost use Rattle.std.specs.Prelude.{◌≡◌, ◌+◌, ◌<◌, ◌≤◌, None, nat_lt};
ghost use Rattle.pairing_heap.specs.Heap.{Stands, Holds};

use crate::laws::stands_when_empty;
use crate::{Counted, Heap, HeapKey, Keyed, Steps};
use link_arena::{Arena, Links};
use std::alloc::Global;
use std::marker::Brand;
use std::process::Abort;
use std::sync::ledger::{Blank, Ledger};

impl HeapKey for u64 {
    ghost use Rattle.std.specs.Prelude.{nat_lt};
    ghost use Rattle.pairing_heap.specs.Order.{number_order};

    ghost precedes = { nat_lt };

    ghost order = { number_order };
}

impl<L: Ledger> Counted<L> for u64 {
    fn before(&self, other: &Self, steps: &mut Steps<L>) -> bool {
        steps.tick();
        self < other
    }
}

// A value with a key for each set: `left` for set 0, and `right` for set 1.
#[derive(Clone, Copy, PartialEq, Eq, Debug)]
struct Sides {
    left: u64,
    right: u64,
}

impl Keyed<0> for Sides {
    type Key = u64;

    ghost key_of = { λ s. s.left };

    fn key(&self) -> u64 {
        self.left
    }
}

impl Keyed<1> for Sides {
    type Key = u64;

    ghost key_of = { λ s. s.right };

    fn key(&self) -> u64 {
        self.right
    }
}

// A value comes into the arena, and its slot into both heaps.
fn enter<L: Ledger>(
    arena: &mut Arena<Sides>,
    left: &mut Heap<0>,
    right: &mut Heap<1>,
    sides: Sides,
    steps: &mut Steps<L>,
) -> u32
    requires left { Stands 0 (λ s. s.left) nat_lt arena.old left.old }
    requires right { Stands 1 (λ s. s.right) nat_lt arena.old right.old }
    requires spare { 0 < arena.old.spare }
    ensures left { Stands 0 (λ s. s.left) nat_lt arena.new left.new }
    ensures right { Stands 1 (λ s. s.right) nat_lt arena.new right.new }
    ensures in_left { Holds 0 (λ s. s.left) arena.new left.new result }
    ensures spare { arena.new.spare + 1 ≡ arena.old.spare }
    ensures most { steps.new ≤ steps.old + 2 }
{
    let slot = arena.insert_reserved(sides);
    left.push(arena, slot, steps);
    right.push(arena, slot, steps);
    slot
}

// Three slots come into both heaps, in an arena that had no room.
fn enter_three<R: Abort, L: Ledger>(
    rt: &R,
    arena: &mut Arena<Sides>,
    left: &mut Heap<0>,
    right: &mut Heap<1>,
    steps: &mut Steps<L>,
) -> (u32, u32, u32)
    requires left { left.old ≡ None }
    requires right { right.old ≡ None }
    ensures stands { Stands 0 (λ s. s.left) nat_lt arena.new left.new }
    ensures held { Holds 0 (λ s. s.left) arena.new left.new result.2 }
{
    arena.reserve().expect(rt, "room");
    arena.reserve().expect(rt, "room");
    arena.reserve().expect(rt, "room");
    stands_when_empty::<Sides, 0>();
    stands_when_empty::<Sides, 1>();
    let a = enter(arena, left, right, Sides { left: 5, right: 1 }, steps);
    let b = enter(arena, left, right, Sides { left: 3, right: 2 }, steps);
    let c = enter(arena, left, right, Sides { left: 8, right: 3 }, steps);
    (a, b, c)
}

// What leaves the left heap stays in the right one.
fn leave_in_order<R: Abort, L: Ledger>(rt: &R, alloc: Global, blank: Blank)
    requires name { blank.name ≡ L.name }
    requires parts { blank.parts ≡ L.parts }
    requires some { 0 < blank.parts }
{
    let mut steps = Steps::<L>::new(blank);
    let mut arena = Arena::new(alloc).expect(rt, "room");
    let (mut left, mut right) = (Heap::new(), Heap::new());
    let (a, b, c) = enter_three(rt, &mut arena, &mut left, &mut right, &mut steps);
    assert_eq!(rt; left.peek(), Some(b));
    left.remove(&mut arena, c, &mut steps);
    assert_eq!(rt; left.pop(&mut arena, &mut steps), Some(b));
    assert_eq!(rt; right.peek(), Some(a));
    assert_eq!(rt; left.pop(&mut arena, &mut steps), Some(a));
    assert_eq!(rt; left.pop(&mut arena, &mut steps), None);
    assert!(rt; left.is_empty());
}

// The last slot goes first with another key, and then none is left.
fn rekey_and_clear<R: Abort, L: Ledger>(rt: &R, alloc: Global, blank: Blank)
    requires name { blank.name ≡ L.name }
    requires parts { blank.parts ≡ L.parts }
    requires some { 0 < blank.parts }
{
    let mut steps = Steps::<L>::new(blank);
    let mut arena = Arena::new(alloc).expect(rt, "room");
    let (mut left, mut right) = (Heap::new(), Heap::new());
    let (a, _, c) = enter_three(rt, &mut arena, &mut left, &mut right, &mut steps);
    let old = left.rekey(&mut arena, c, Sides { left: 1, right: 3 }, &mut steps);
    assert_eq!(rt; old, Sides { left: 8, right: 3 });
    assert_eq!(rt; left.peek(), Some(c));
    left.clear(&mut arena);
    assert!(rt; left.is_empty());
    assert!(rt; arena.is_live(a));
    if arena.is_live(a) {
        assert_eq!(rt; arena.links(0, a), Links::NONE);
    }
}

#[test]
fn heaps_of_three_slots(rt: HostRuntime) {
    leave_in_order::<_, Brand>(&rt, rt.alloc(), Blank::new(1));
    rekey_and_clear::<_, Brand>(&rt, rt.alloc(), Blank::new(1));
}
