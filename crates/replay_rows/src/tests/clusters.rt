//! Rows of two clusters: where threads may stand, looks and aims, offers, and power.

use super::{FAR_CLUSTERS, ONE_CLUSTER, TWO_CLUSTERS, plays_whole, replays, text};
use std::test::Fail;

// A bound thread stays in its cluster and is not offered. The second cluster works at two fifths of
// the speed.
#[test]
fn bound_threads(rt: HostRuntime) -> Result<(), Fail> {
    let row = [
        "0 0 make 2 0 UT 31 0 = ok",
        "0 0 enter 1 tail = no NotAllowed",
        "0 0 aim = to 0",
        "0 0 enter 0 tail = pri 31",
        "0 1 offer 0 = -",
        "0 0 make 1 0 UT 31 - = ok",
        "0 0 enter 0 tail = pri 31",
        "0 0 select = got 2",
        "0 1 offer 0 = got 1",
        "5000 1 ran 5000 = work 2000",
    ];
    plays_whole(&rt, rt.alloc(), TWO_CLUSTERS, &row)
}

// A thread aims at a cluster of less load where the difference is worth the weight of the edge.
#[test]
fn aim(rt: HostRuntime) -> Result<(), Fail> {
    let row = [
        "0 0 make 1 0 FG 31 - = ok",
        "0 0 enter 0 tail = pri 31",
        "0 0 make 2 0 FG 31 - = ok",
        "0 0 enter 0 tail = pri 31",
        "0 0 make 3 0 FG 31 - = ok",
        "0 0 aim = no LookFirst 0",
        "0 0 look 0 = load 20000",
        "0 0 aim = no LookFirst 1",
        "0 0 look 1 = load 0",
        "0 0 aim = to 1",
        "0 0 enter 1 tail = pri 31",
    ];
    plays_whole(&rt, rt.alloc(), TWO_CLUSTERS, &row)?;
    let row = [
        "0 0 make 1 0 FG 31 - = ok",
        "0 0 enter 0 tail = pri 31",
        "0 0 make 2 0 FG 31 - = ok",
        "0 0 enter 0 tail = pri 31",
        "0 0 make 3 0 FG 31 - = ok",
        "0 0 aim = no LookFirst 0",
        "0 0 look 0 = load 20000",
        "0 0 aim = no LookFirst 1",
        "0 0 look 1 = load 0",
        "0 0 aim = to 0",
        "0 0 enter 0 tail = pri 31",
    ];
    plays_whole(&rt, rt.alloc(), FAR_CLUSTERS, &row)
}

// A thread that prefers the taker is offered first, then one of a bucket that may be stolen: UT.
#[test]
fn offers(rt: HostRuntime) -> Result<(), Fail> {
    let row = [
        "0 0 make 1 0 FG 31 - = ok",
        "0 0 enter 0 tail = pri 31",
        "0 0 make 2 0 UT 31 - = ok",
        "0 0 enter 0 tail = pri 31",
        "0 0 make 3 1 FG 20 - = ok",
        "0 0 enter 0 tail = pri 20",
        "0 1 offer 0 = got 3",
        "0 1 enter 1 tail = pri 20",
        "0 1 offer 0 = got 2",
        "0 1 end = ok",
        "0 1 offer 0 = -",
        "0 0 offer 1 = -",
        "0 0 offer 0 = no OwnCluster",
    ];
    plays_whole(&rt, rt.alloc(), TWO_CLUSTERS, &row)
}

// The entry that is pulled has others before and behind it, and those are offered in their order.
#[test]
fn pulled_from_the_middle(rt: HostRuntime) -> Result<(), Fail> {
    let row = [
        "0 0 make 1 1 FG 31 - = ok",
        "0 0 enter 0 tail = pri 31",
        "0 0 make 2 1 FG 30 - = ok",
        "0 0 enter 0 tail = pri 30",
        "0 0 make 3 1 FG 29 - = ok",
        "0 0 enter 0 tail = pri 29",
        "0 0 pull 2 = ok",
        "0 0 end = ok",
        "0 1 offer 0 = got 1",
        "0 1 end = ok",
        "0 1 offer 0 = got 3",
    ];
    plays_whole(&rt, rt.alloc(), TWO_CLUSTERS, &row)
}

// A cluster that is off gives up what it has, and is not aimed at.
#[test]
fn off_and_on(rt: HostRuntime) -> Result<(), Fail> {
    let row = [
        "0 0 make 1 0 FG 31 - = ok",
        "0 0 enter 0 tail = pri 31",
        "0 1 offer 0 = -",
        "0 0 off 0 = ok",
        "0 0 select = off",
        "0 1 offer 0 = got 1",
        "0 1 look 0 = off",
        "0 1 look 1 = load 0",
        "0 1 aim = to 1",
        "0 1 enter 1 tail = pri 31",
        "0 0 on 0 = ok",
        "0 0 offer 1 = got 1",
    ];
    plays_whole(&rt, rt.alloc(), TWO_CLUSTERS, &row)
}

// The only cluster takes threads while it is off, and serves them once it is on.
#[test]
fn off_alone(rt: HostRuntime) -> Result<(), Fail> {
    let row = [
        "0 0 off 0 = ok",
        "0 0 make 1 0 FG 31 - = ok",
        "0 0 aim = to 0",
        "0 0 enter 0 tail = pri 31",
        "0 0 select = off",
        "0 0 on 0 = ok",
        "0 0 select = got 1",
    ];
    plays_whole(&rt, rt.alloc(), ONE_CLUSTER, &row)
}

// A step takes place no earlier than the last of its actor and the last of its place. A refused
// step leaves both as they were.
#[test]
fn moments(rt: HostRuntime) -> Result<(), Fail> {
    let row = [
        "100 0 select = -",
        "200 0 end = no HandEmpty",
        "100 0 select = -",
        "100 1 offer 0 = -",
    ];
    let asked = [
        "100 0 select = -",
        "200 0 end = no HandEmpty",
        "50 0 select = -",
        "50 1 offer 0 = -",
    ];
    let input = text(rt.alloc(), TWO_CLUSTERS, &asked)?;
    let output = text(rt.alloc(), TWO_CLUSTERS, &row)?;
    replays(&rt, rt.alloc(), &input, &output)?;
    plays_whole(&rt, rt.alloc(), TWO_CLUSTERS, &row)
}
