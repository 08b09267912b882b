//! Rows of buckets: warps, starvation, and what is above UI.

use super::{ONE_CLUSTER, WITH_WARP, WITHOUT_WARP, plays_whole};
use std::test::Fail;

// BG is due at 250000. FG passes it until its warp is spent at 268000; then BG is starved, and its
// window ends at 270000.
#[test]
fn warp_and_starvation(rt: HostRuntime) -> Result<(), Fail> {
    let row = [
        "0 0 make 1 0 BG 31 - = ok",
        "0 0 enter 0 tail = pri 31",
        "0 0 make 3 0 BG 31 - = ok",
        "0 0 enter 0 tail = pri 31",
        "0 0 make 4 0 BG 31 - = ok",
        "0 0 enter 0 tail = pri 31",
        "260000 0 make 2 0 FG 31 - = ok",
        "260000 0 enter 0 tail = pri 31",
        "260000 0 select = got 2",
        "260000 0 enter 0 tail = pri 31",
        "267999 0 select = got 2",
        "267999 0 enter 0 tail = pri 31",
        "268000 0 select = got 1",
        "268000 0 end = ok",
        "269999 0 select = got 3",
        "269999 0 end = ok",
        "270000 0 select = got 2",
        "270000 0 end = ok",
        "270000 0 select = got 4",
    ];
    plays_whole(&rt, rt.alloc(), ONE_CLUSTER, &row)
}

// A unit of FG and one of UI at 56 each: UI goes first.
#[test]
fn above_ui_equal(rt: HostRuntime) -> Result<(), Fail> {
    let row = [
        "0 0 make 1 0 FG 40 - = ok",
        "0 0 enter 0 tail = pri 40",
        "0 0 make 2 0 UI 40 - = ok",
        "0 0 enter 0 tail = pri 40",
        "0 0 select = got 2",
    ];
    plays_whole(&rt, rt.alloc(), ONE_CLUSTER, &row)
}

// A unit of FG at 57 against one of UI at 56: FG goes first.
#[test]
fn above_ui_lower(rt: HostRuntime) -> Result<(), Fail> {
    let row = [
        "0 0 make 1 0 FG 41 - = ok",
        "0 0 enter 0 tail = pri 41",
        "0 0 make 2 0 UI 40 - = ok",
        "0 0 enter 0 tail = pri 40",
        "0 0 select = got 1",
        "0 0 end = ok",
        "0 0 select = got 2",
    ];
    plays_whole(&rt, rt.alloc(), ONE_CLUSTER, &row)
}

// Both lanes of UT are due at 150000, and that of the bound threads goes first.
#[test]
fn bound_before_unbound(rt: HostRuntime) -> Result<(), Fail> {
    let row = [
        "0 0 make 1 0 UT 31 - = ok",
        "0 0 enter 0 tail = pri 31",
        "0 0 make 2 0 UT 31 0 = ok",
        "0 0 enter 0 tail = pri 31",
        "0 0 select = got 2",
        "0 0 end = ok",
        "0 0 select = got 1",
    ];
    plays_whole(&rt, rt.alloc(), ONE_CLUSTER, &row)
}

// Without a warp FG doesn't pass BG, which was due at 250000; with one of 8000 it does.
#[test]
fn times(rt: HostRuntime) -> Result<(), Fail> {
    let row = [
        "0 0 make 1 0 BG 31 - = ok",
        "0 0 enter 0 tail = pri 31",
        "260000 0 make 2 0 FG 31 - = ok",
        "260000 0 enter 0 tail = pri 31",
        "260000 0 select = got 1",
    ];
    plays_whole(&rt, rt.alloc(), WITHOUT_WARP, &row)?;
    let row = [
        "0 0 make 1 0 BG 31 - = ok",
        "0 0 enter 0 tail = pri 31",
        "260000 0 make 2 0 FG 31 - = ok",
        "260000 0 enter 0 tail = pri 31",
        "260000 0 select = got 2",
    ];
    plays_whole(&rt, rt.alloc(), WITH_WARP, &row)
}
