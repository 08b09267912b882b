//! Setups, built from numbers.

use flat_policy::setup::{BuildError, EdgeSpec, Field, Setup, Times};
use sched_base::limits::MOST_EDGES;
use sched_base::{Act, Bucket, Step};
use std::alloc::AllocError;
use std::test::Fail;

const ONE: [[u64; 2]; 1] = [[1, 1000]];

const TWO: [[u64; 2]; 2] = [[1, 1000], [1, 400]];

const NEAR: [u64; 6] = [0; 6];

const FAR: [u64; 6] = [1; 6];

const THERE: [u64; 5] = [0, 1, 8000, 1, 16];

const BACK: [u64; 5] = [1, 0, 0, 1, 0];

const TIMES: [[u64; 6]; 3] = [
    [0, 0, 37500, 75000, 150000, 250000],
    [0, 0, 4000, 2000, 1000, 0],
    [10000, 10000, 8000, 6000, 4000, 2000],
];

const MOST: [[u64; 6]; 3] = [
    [
        0, 10_000_000, 10_000_000, 10_000_000, 10_000_000, 10_000_000,
    ],
    [0, 1_000_000, 1_000_000, 1_000_000, 1_000_000, 1_000_000],
    [100_000; 6],
];

type Case<'a> = (
    &'a [[u64; 2]],
    &'a [[u64; 5]],
    &'a [[u64; 6]],
    u64,
    u64,
    Field,
);

#[test]
fn the_first_field_out_of_range(rt: HostRuntime) {
    let cases: [Case; 27] = [
        (&[], &[], &[NEAR], 8, 1, Field::Clusters),
        (&[[1, 1000]; 9], &[], &[NEAR], 8, 1, Field::Clusters),
        (&[[0, 1000]], &[], &[NEAR], 8, 1, Field::Clusters),
        (&[[17, 1000]], &[], &[NEAR], 8, 1, Field::Clusters),
        (&[[1, 99]], &[], &[NEAR], 8, 1, Field::Clusters),
        (&[[1, 1001]], &[], &[NEAR], 8, 1, Field::Clusters),
        (&[[9, 1000], [8, 1000]], &[], &[NEAR], 8, 1, Field::Clusters),
        (
            &[[u64::MAX, 1000], [u64::MAX, 1000]],
            &[],
            &[NEAR],
            8,
            1,
            Field::Clusters,
        ),
        (&ONE, &[[0, 0, 0, 1, 0]], &[NEAR], 8, 1, Field::Edges),
        (&TWO, &[[2, 0, 0, 1, 0]], &[NEAR], 8, 1, Field::Edges),
        (&TWO, &[[0, 2, 0, 1, 0]], &[NEAR], 8, 1, Field::Edges),
        (
            &TWO,
            &[[0, 1, 10_000_001, 1, 0]],
            &[NEAR],
            8,
            1,
            Field::Edges,
        ),
        (&TWO, &[[0, 1, 0, 2, 0]], &[NEAR], 8, 1, Field::Edges),
        (&TWO, &[[0, 1, 0, 1, 64]], &[NEAR], 8, 1, Field::Edges),
        (
            &TWO,
            &[THERE, BACK, [0, 1, 0, 0, 0]],
            &[NEAR],
            8,
            1,
            Field::Edges,
        ),
        (&TWO, &[THERE; 57], &[NEAR], 8, 1, Field::Edges),
        (&TWO, &[], &[], 8, 1, Field::Groups),
        (&TWO, &[], &[NEAR; 65], 8, 1, Field::Groups),
        (&TWO, &[], &[NEAR, [0, 0, 0, 0, 0, 2]], 8, 1, Field::Groups),
        (&TWO, &[], &[NEAR], 0, 1, Field::Threads),
        (&TWO, &[], &[NEAR], 4097, 1, Field::Threads),
        (&TWO, &[], &[NEAR], 8, 0, Field::Version),
        (&TWO, &[], &[NEAR], 8, 2, Field::Version),
        (&[], &[THERE], &[], 0, 3, Field::Clusters),
        (&ONE, &[THERE], &[], 0, 3, Field::Edges),
        (&ONE, &[], &[], 0, 3, Field::Groups),
        (&ONE, &[], &[NEAR], 0, 3, Field::Threads),
    ];
    for (clusters, edges, groups, threads, version, field) in cases {
        let built = Setup::build(rt.alloc(), clusters, edges, groups, threads, version);
        assert_eq!(rt; built.err(), Some(BuildError::Range(field)));
    }
}

#[test]
fn times_out_of_range(rt: HostRuntime) {
    let [wcel, warp, quantum] = TIMES;
    let cases: [&[[[u64; 6]; 3]]; 9] = [
        &[],
        &[TIMES, TIMES],
        &[[[0, 0, 0, 0, 0, 10_000_001], warp, quantum]],
        &[[wcel, [0, 1_000_001, 0, 0, 0, 0], quantum]],
        &[[wcel, warp, [10000, 10000, 8000, 6000, 4000, 999]]],
        &[[wcel, warp, [100_001, 10000, 8000, 6000, 4000, 2000]]],
        &[[[1, 0, 0, 0, 0, 0], warp, quantum]],
        &[[wcel, [1, 0, 0, 0, 0, 0], quantum]],
        &[[wcel, warp, [0; 6]]],
    ];
    for times in cases {
        let built = Setup::build_timed(rt.alloc(), &ONE, &[], &[NEAR], 8, times);
        assert_eq!(rt; built.err(), Some(BuildError::Range(Field::Times)));
        let built = Setup::build_timed(rt.alloc(), &ONE, &[], &[NEAR], 0, times);
        assert_eq!(rt; built.err(), Some(BuildError::Range(Field::Threads)));
    }
}

/// Every edge between eight clusters, each with its greatest numbers.
fn every_edge(rt: HostRuntime) -> Result<Vec<[u64; 5]>, AllocError> {
    let mut edges = Vec::with_capacity(rt.alloc(), MOST_EDGES)?;
    for from in 0..8 {
        for to in 0..8 {
            if from != to {
                edges.push([from, to, 10_000_000, 1, 63])?;
            }
        }
    }
    Ok(edges)
}

#[test]
fn the_greatest_setups(rt: HostRuntime) -> Result<(), Fail> {
    let (clusters, groups) = ([[2, 1000]; 8], [[7; 6]; 64]);
    let edges = every_edge(rt)?;
    let plain = Setup::build(rt.alloc(), &clusters, &edges, &groups, 4096, 1)?;
    let timed = Setup::build_timed(rt.alloc(), &clusters, &edges, &groups, 4096, &[MOST; 8])?;
    let (plain_copy, timed_copy) = (plain.copy()?, timed.copy()?);
    let last = EdgeSpec {
        from: 7,
        to: 6,
        weight: 10_000_000,
        migrate: true,
        steal: 63,
    };
    let cases = [
        (&plain, 1, 250_000, 0, 2000),
        (&plain_copy, 1, 250_000, 0, 2000),
        (&timed, 2, 10_000_000, 1_000_000, 100_000),
        (&timed_copy, 2, 10_000_000, 1_000_000, 100_000),
    ];
    for (setup, version, wcel, warp, quantum) in cases {
        assert_eq!(rt; (setup.clusters(), setup.actors()), (8, 16));
        assert_eq!(rt; (setup.groups(), setup.edge_count()), (64, 56));
        assert_eq!(rt; (setup.threads(), setup.version()), (4096, version));
        assert!(rt; 7 < setup.clusters() && 15 < setup.actors());
        assert!(rt; 63 < setup.groups() && 55 < setup.edge_count());
        assert_eq!(rt; (setup.cpus(7), setup.rate(7)), (2, 1000));
        assert_eq!(rt; (setup.home(15), setup.prefer(63, Bucket::Bg)), (7, 7));
        assert_eq!(rt; setup.edge_at(55), last);
        let times = Times {
            wcel,
            warp,
            quantum,
        };
        assert_eq!(rt; setup.cluster_times(7)[5], times);
    }
    Ok(())
}

#[test]
fn what_a_setup_says(rt: HostRuntime) -> Result<(), Fail> {
    let clusters = [[2, 1000], [2, 400]];
    let edges = [[0, 1, 8000, 1, 48], [1, 0, 4000, 1, 63]];
    let groups = [[0, 0, 0, 0, 1, 1], [0, 0, 0, 1, 1, 1]];
    let built = Setup::build(rt.alloc(), &clusters, &edges, &groups, 64, 1)?;
    let setup = built.copy()?;
    assert_eq!(rt;
        (setup.clusters(), setup.actors(), setup.groups()),
        (2, 4, 2)
    );
    assert_eq!(rt;
        (setup.threads(), setup.version(), setup.edge_count()),
        (64, 1, 2)
    );
    assert_eq!(rt;
        (setup.cpus(1), setup.rate(0), setup.rate(1)),
        (2, 1000, 400)
    );
    for (actor, home) in [(0, 0), (1, 0), (2, 1), (3, 1)] {
        assert!(rt; actor < setup.actors());
        assert_eq!(rt; setup.home(actor), home);
    }
    assert_eq!(rt;
        (
            setup.prefer(0, Bucket::Df),
            setup.prefer(0, Bucket::Ut),
            setup.prefer(1, Bucket::Df)
        ),
        (0, 1, 1)
    );
    let edge = EdgeSpec {
        from: 1,
        to: 0,
        weight: 4000,
        migrate: true,
        steal: 63,
    };
    assert_eq!(rt; setup.edge_at(1), edge);
    let times = Times {
        wcel: 37500,
        warp: 4000,
        quantum: 8000,
    };
    assert_eq!(rt; setup.times(1, Bucket::Ini), times);
    Ok(())
}

#[test]
fn times_of_its_own(rt: HostRuntime) -> Result<(), Fail> {
    let setup = Setup::build_timed(rt.alloc(), &ONE, &[], &[NEAR], 8, &[TIMES])?.copy()?;
    assert_eq!(rt; setup.version(), 2);
    let times = Times {
        wcel: 0,
        warp: 0,
        quantum: 10000,
    };
    assert_eq!(rt;
        (setup.times(0, Bucket::Ui), setup.times(0, Bucket::Fg)),
        (times, times)
    );
    let times = Times {
        wcel: 250000,
        warp: 0,
        quantum: 2000,
    };
    assert_eq!(rt; setup.times(0, Bucket::Bg), times);
    Ok(())
}

#[test]
fn steps_that_fit(rt: HostRuntime) -> Result<(), Fail> {
    let setup = Setup::build(rt.alloc(), &TWO, &[THERE, BACK], &[NEAR, FAR], 8, 1)?;
    let make = |group, base, bound| Act::Make {
        name: 1,
        group,
        bucket: Bucket::Fg,
        base,
        bound,
    };
    let cases = [
        (1 << 39, 1, Act::Select, true),
        (1 << 40, 1, Act::Select, false),
        (0, 2, Act::Select, false),
        (0, 0, make(1, 127, Some(1)), true),
        (0, 0, make(2, 127, None), false),
        (0, 0, make(0, 128, None), false),
        (0, 0, make(0, 0, Some(2)), false),
        (
            0,
            0,
            Act::Enter {
                cluster: 2,
                head: true,
            },
            false,
        ),
        (0, 0, Act::Offer { cluster: 2 }, false),
        (0, 0, Act::Look { cluster: 2 }, false),
        (0, 0, Act::Off { cluster: 2 }, false),
        (0, 0, Act::On { cluster: 2 }, false),
        (0, 0, Act::On { cluster: 1 }, true),
        (0, 0, Act::Pull { name: u32::MAX }, true),
    ];
    for (moment, actor, act, fits) in cases {
        assert_eq!(rt; setup.fits(&Step { moment, actor, act }), fits);
    }
    Ok(())
}
