//! Rows of one cluster: who is first, and what is refused.

use super::{ONE_CLUSTER, ONE_THREAD, plays_whole};
use std::test::Fail;

// Equals are served as they came, and an empty queue has nobody.
#[test]
fn arrival_order(rt: HostRuntime) -> Result<(), Fail> {
    let row = [
        "0 0 select = -",
        "0 0 make 1 0 FG 31 - = ok",
        "0 0 select = no HandFull",
        "0 0 enter 0 tail = pri 31",
        "0 0 make 2 0 FG 31 - = ok",
        "0 0 enter 0 tail = pri 31",
        "0 0 select = got 1",
        "0 0 end = ok",
        "0 0 select = got 2",
    ];
    plays_whole(&rt, rt.alloc(), ONE_CLUSTER, &row)
}

// A thread that enters again stands behind its equals.
#[test]
fn enters_again(rt: HostRuntime) -> Result<(), Fail> {
    let row = [
        "0 0 make 1 0 FG 31 - = ok",
        "0 0 enter 0 tail = pri 31",
        "0 0 make 2 0 FG 31 - = ok",
        "0 0 enter 0 tail = pri 31",
        "0 0 select = got 1",
        "0 0 enter 0 tail = pri 31",
        "0 0 select = got 2",
    ];
    plays_whole(&rt, rt.alloc(), ONE_CLUSTER, &row)
}

// A thread that enters at the head comes first, and a queued thread may be pulled by its name.
#[test]
fn head_and_pull(rt: HostRuntime) -> Result<(), Fail> {
    let row = [
        "0 0 make 1 0 FG 31 - = ok",
        "0 0 enter 0 tail = pri 31",
        "0 0 make 2 0 FG 31 - = ok",
        "0 0 enter 0 head = pri 31",
        "0 0 select = got 2",
        "0 0 sleep = ok",
        "0 0 blocked = left 1",
        "0 0 pull 2 = no NotQueued blocked",
        "0 0 pull 1 = ok",
        "0 0 wake 2 = no HandFull",
    ];
    plays_whole(&rt, rt.alloc(), ONE_CLUSTER, &row)
}

// Of several refusals the first is told, and an ended thread makes room.
#[test]
fn refusals_in_order(rt: HostRuntime) -> Result<(), Fail> {
    let row = [
        "0 0 make 1 0 FG 31 - = ok",
        "0 0 make 1 0 FG 31 - = no HandFull",
        "0 0 enter 0 tail = pri 31",
        "0 0 make 1 0 FG 31 - = no NameUsed",
        "0 0 make 2 0 FG 31 - = no NoRoom",
        "0 0 wake 1 = no NotBlocked q 0",
        "0 0 wake 9 = no NotBlocked none",
        "0 0 select = got 1",
        "0 0 end = ok",
        "0 0 pull 1 = no NotQueued ended",
        "0 0 make 2 0 FG 31 - = ok",
        "0 0 end = ok",
        "0 0 end = no HandEmpty",
    ];
    plays_whole(&rt, rt.alloc(), ONE_THREAD, &row)
}
