//! The row of a full machine.

use super::replays;
use std::alloc::{AllocError, Global};
use std::test::Fail;

/// The most threads that a setup may have.
const MOST: u32 = 4096;

/// One cluster of one processor at full speed, one group, and room for that many threads.
const FULL: &str =
    "{\"clusters\":[[1,1000]],\"edges\":[],\"groups\":[[0,0,0,0,0,0]],\"threads\":4096,\"version\":1}\n";

/// Appends the line in which a thread of the first group is made.
fn push_make(alloc: Global, row: &mut String, name: u32, answer: &str) -> Result<(), AllocError> {
    row.push_str("0 0 make ")?;
    row.push_str(&name.to_string(alloc)?)?;
    row.push_str(" 0 FG 31 - = ")?;
    row.push_str(answer)?;
    row.push_str("\n")
}

/// Appends the lines in which the thread of this name is served, and ends.
fn push_served(alloc: Global, row: &mut String, name: u32) -> Result<(), AllocError> {
    row.push_str("0 0 select = got ")?;
    row.push_str(&name.to_string(alloc)?)?;
    row.push_str("\n0 0 end = ok\n")
}

// As many threads as may live are made and enter; one more has no room, and the first come are served
// first.
#[test]
fn four_thousand_threads(rt: HostRuntime) -> Result<(), Fail> {
    let alloc = rt.alloc();
    let mut row = String::new(alloc);
    row.push_str(FULL)?;
    for name in 1..=MOST {
        push_make(alloc, &mut row, name, "ok")?;
        row.push_str("0 0 enter 0 tail = pri 31\n")?;
    }
    push_make(alloc, &mut row, MOST + 1, "no NoRoom")?;
    for name in 1..=3 {
        push_served(alloc, &mut row, name)?;
    }
    assert_eq!(rt; row.lines().count(), 8200);
    replays(&rt, alloc, row.as_bytes(), row.as_bytes())
}
