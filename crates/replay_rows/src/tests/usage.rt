//! Rows of usage and interactivity, and of groups.

use super::{ONE_CLUSTER, TWO_GROUPS, plays_whole};
use std::test::Fail;

// A usage of 32000 lowers 31 by 2, and one tick leaves 20000 of it.
#[test]
fn decay(rt: HostRuntime) -> Result<(), Fail> {
    let row = [
        "0 0 make 1 0 FG 31 - = ok",
        "32000 0 ran 32000 = work 32000",
        "32000 0 enter 0 tail = pri 29",
        "125000 0 refresh = new 1",
        "125000 0 select = got 1",
        "125000 0 enter 0 tail = pri 30",
    ];
    plays_whole(&rt, rt.alloc(), ONE_CLUSTER, &row)
}

// With two threads in a unit 8000 of usage lower a priority by 1.
#[test]
fn two_in_one_unit(rt: HostRuntime) -> Result<(), Fail> {
    let row = [
        "0 0 make 1 0 FG 31 - = ok",
        "0 0 enter 0 tail = pri 31",
        "0 0 make 2 0 FG 31 - = ok",
        "16000 0 ran 16000 = work 16000",
        "16000 0 enter 0 tail = pri 29",
    ];
    plays_whole(&rt, rt.alloc(), ONE_CLUSTER, &row)
}

// Blocked for 10000 and run for 3000, group 0 has the score 13: a unit of FG at 45 against one of UI
// at 44. With a base that is lower by 1 they are equal, and UI goes first.
#[test]
fn interactivity(rt: HostRuntime) -> Result<(), Fail> {
    let row = [
        "0 0 make 1 0 FG 32 - = ok",
        "3000 0 ran 3000 = work 3000",
        "3000 0 sleep = ok",
        "13000 0 wake 1 = ok",
        "13000 0 enter 0 tail = pri 32",
        "13000 0 make 2 0 UI 28 - = ok",
        "13000 0 enter 0 tail = pri 28",
        "13000 0 select = got 1",
    ];
    plays_whole(&rt, rt.alloc(), ONE_CLUSTER, &row)?;
    let row = [
        "0 0 make 1 0 FG 31 - = ok",
        "3000 0 ran 3000 = work 3000",
        "3000 0 sleep = ok",
        "13000 0 wake 1 = ok",
        "13000 0 enter 0 tail = pri 31",
        "13000 0 make 2 0 UI 28 - = ok",
        "13000 0 enter 0 tail = pri 28",
        "13000 0 select = got 2",
    ];
    plays_whole(&rt, rt.alloc(), ONE_CLUSTER, &row)
}

// Group 0 has the score 13 and so a unit at 46, group 1 has one at 47.
#[test]
fn scores_by_group(rt: HostRuntime) -> Result<(), Fail> {
    let row = [
        "0 0 make 1 0 FG 33 - = ok",
        "3000 0 ran 3000 = work 3000",
        "3000 0 sleep = ok",
        "13000 0 wake 1 = ok",
        "13000 0 enter 0 tail = pri 33",
        "13000 0 make 2 1 FG 31 - = ok",
        "13000 0 enter 0 tail = pri 31",
        "13000 0 select = got 2",
    ];
    plays_whole(&rt, rt.alloc(), TWO_GROUPS, &row)
}

// Units of two groups that are equal are served in turn.
#[test]
fn groups_take_turns(rt: HostRuntime) -> Result<(), Fail> {
    let row = [
        "0 0 make 1 0 FG 31 - = ok",
        "0 0 enter 0 tail = pri 31",
        "0 0 make 2 0 FG 31 - = ok",
        "0 0 enter 0 tail = pri 31",
        "0 0 make 3 1 FG 31 - = ok",
        "0 0 enter 0 tail = pri 31",
        "0 0 make 4 1 FG 31 - = ok",
        "0 0 enter 0 tail = pri 31",
        "0 0 select = got 1",
        "0 0 end = ok",
        "0 0 select = got 3",
        "0 0 end = ok",
        "0 0 select = got 2",
        "0 0 end = ok",
        "0 0 select = got 4",
    ];
    plays_whole(&rt, rt.alloc(), TWO_GROUPS, &row)
}
