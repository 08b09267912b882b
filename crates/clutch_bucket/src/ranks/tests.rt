ghost use Rattle.std.specs.Prelude.{◌≡◌, ◌<◌};

use crate::{Ranks, UnitKey};
use pairing_heap::Steps;
use std::alloc::Global;
use std::marker::Brand;
use std::process::Abort;
use std::sync::ledger::{Blank, Ledger};

// Two units of one priority take turns, and one of a lower priority waits.
fn take_turns<R: Abort, L: Ledger>(rt: &R, alloc: Global, blank: Blank)
    requires name { blank.name ≡ L.name }
    requires parts { blank.parts ≡ L.parts }
    requires some { 0 < blank.parts }
{
    let mut steps = Steps::<L>::new(blank);
    let mut ranks = Ranks::new(alloc, 3).expect(rt, "room");
    assert_eq!(rt; ranks.first(), None);
    ranks.set(0, UnitKey { pri: 31, turn: 4 }, &mut steps);
    ranks.set(1, UnitKey { pri: 31, turn: 2 }, &mut steps);
    ranks.set(2, UnitKey { pri: 20, turn: 1 }, &mut steps);
    assert_eq!(rt; ranks.first(), Some(1));
    ranks.set(1, UnitKey { pri: 31, turn: 5 }, &mut steps);
    assert_eq!(rt; ranks.first(), Some(0));
    ranks.clear(0, &mut steps);
    assert_eq!(rt; ranks.first(), Some(1));
    assert_eq!(rt; ranks.get(0), None);
}

#[test]
fn units_take_turns(rt: HostRuntime) {
    take_turns::<_, Brand>(&rt, rt.alloc(), Blank::new(1));
}
