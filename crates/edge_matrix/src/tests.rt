//! Worked examples of the calls.

ghost use Rattle.std.specs.Prelude.{◌≡◌};

use super::*;
use flat_policy::setup::BuildError;
use std::alloc::Global;

/// Two clusters, with an edge each way.
fn two_clusters(alloc: Global) -> Result<Setup, BuildError> {
    Setup::build(
        alloc,
        &[[1, 1000], [1, 400]],
        &[[0, 1, 8000, 1, 16], [1, 0, 0, 1, 0]],
        &[[0, 0, 0, 0, 0, 0], [1, 1, 1, 1, 1, 1]],
        8,
        1,
    )
}

/// A thread's facts; its group is that of its preferred cluster.
fn facts(bucket: Bucket, bound: Option<u8>, prefer: u8) -> Facts
    ensures { result.prefer ≡ prefer }
{
    Facts {
        name: 1,
        group: prefer,
        bucket,
        base: 31,
        bound,
        prefer,
        usage: 0,
        seen: 0,
        pending_ran: 0,
        pending_blocked: 0,
        work: 0,
    }
}

#[test]
fn edges_of_a_setup(rt: HostRuntime) -> Result<(), std::test::Fail> {
    let setup = two_clusters(rt.alloc())?;
    let edges = Edges::of(&setup);
    assert_eq!(rt;
        (edges.weight(0, 1), edges.weight(1, 0), edges.weight(7, 7)),
        (8000, 0, 0)
    );
    assert_eq!(rt;
        (
            edges.migrate(0, 1),
            edges.migrate(1, 0),
            edges.migrate(1, 1)
        ),
        (true, true, false)
    );
    assert_eq!(rt;
        (edges.steal(0, 1), edges.steal(1, 0), edges.steal(2, 1)),
        (16, 0, 0)
    );
    assert_eq!(rt;
        (
            edges.mask(0, 1, true),
            edges.mask(0, 1, false),
            edges.mask(1, 0, true),
            edges.mask(1, 1, false)
        ),
        (16, 63, 0, 0)
    );
    Ok(())
}

#[test]
fn who_may_enter_and_take(rt: HostRuntime) -> Result<(), std::test::Fail> {
    let setup = two_clusters(rt.alloc())?;
    let edges = Edges::of(&setup);
    let bound = facts(Bucket::Ut, Some(0), 0);
    assert_eq!(rt;
        (edges.may_enter(&bound, 0), edges.may_enter(&bound, 1)),
        (true, false)
    );
    let free = facts(Bucket::Fg, None, 0);
    assert_eq!(rt;
        (edges.may_enter(&free, 0), edges.may_enter(&free, 1)),
        (true, true)
    );
    assert_eq!(rt;
        (edges.may_enter(&free, 2), edges.may_enter(&free, 7)),
        (false, false)
    );
    let mask = edges.steal(0, 1);
    assert_eq!(rt; edges.may_take(0, 1, mask, &bound), false);
    assert_eq!(rt; edges.may_take(0, 1, mask, &free), false);
    assert_eq!(rt;
        edges.may_take(0, 1, mask, &facts(Bucket::Ut, None, 0)),
        true
    );
    assert_eq!(rt;
        edges.may_take(0, 1, mask, &facts(Bucket::Fg, None, 1)),
        true
    );
    assert_eq!(rt; edges.may_take(0, 1, 63, &free), true);
    assert_eq!(rt; edges.may_take(0, 1, 63, &bound), false);
    Ok(())
}
