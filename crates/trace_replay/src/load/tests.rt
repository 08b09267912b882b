//! The row of the load's summary, and sinks that fail in it.

use super::load;
use crate::ReplayStatus;
use cluster_queue::ClusterQueue;
use plain_cluster::PlainCluster;
use ports::ByteSink;
use std::test::Fail;

/// The row of seed 7 and one step, which has 103 bytes.
const ROW: &str =
    "load 7 steps 1\nmake 1\nenter 0\nselect 0 of 0\noffer 0 of 0\nran 0\nsleep 0\nwake 0\nend 0\nrefresh 0\nqueued 0\n";

#[test]
fn one_step_gives_its_row(rt: HostRuntime) -> Result<(), Fail> {
    let mut sink = ByteSink::new(rt.alloc(), 200, 7, Vec::new(rt.alloc()))?;
    let status = load::<ClusterQueue, ByteSink>(rt.alloc(), 7, 1, &mut sink);
    assert_eq!(rt; status, ReplayStatus::Done);
    assert_eq!(rt; sink.bytes(), ROW.as_bytes());
    Ok(())
}

#[test]
fn a_load_stops_at_the_put_that_fails(rt: HostRuntime) -> Result<(), Fail> {
    // Calls 0 to 2 take the row by 40 bytes; a fourth one would be another try.
    for (fail, answer, taken) in [
        (3, ReplayStatus::Done, 103),
        (0, ReplayStatus::WriteFault, 0),
        (1, ReplayStatus::WriteFault, 40),
        (2, ReplayStatus::WriteFault, 80),
    ] {
        let fails = Vec::from_slice(rt.alloc(), &[fail])?;
        let mut sink = ByteSink::new(rt.alloc(), 200, 40, fails)?;
        let status = load::<ClusterQueue, ByteSink>(rt.alloc(), 7, 1, &mut sink);
        assert_eq!(rt; status, answer, "{fail}");
        assert!(rt; taken <= ROW.len());
        assert_eq!(rt; sink.bytes(), &ROW.as_bytes()[..taken], "{fail}");
    }
    Ok(())
}

/// A load of many steps ends, its threads are let go, and nested heaps give the bytes that a plain list gives.
#[test]
fn a_load_of_many_steps_is_the_same_over_both_clusters(rt: HostRuntime) -> Result<(), Fail> {
    let mut plain = ByteSink::new(rt.alloc(), 400, 400, Vec::new(rt.alloc()))?;
    let mut nested = ByteSink::new(rt.alloc(), 400, 400, Vec::new(rt.alloc()))?;
    let statuses = (
        load::<PlainCluster, ByteSink>(rt.alloc(), 7, 2000, &mut plain),
        load::<ClusterQueue, ByteSink>(rt.alloc(), 7, 2000, &mut nested),
    );
    assert_eq!(rt; statuses, (ReplayStatus::Done, ReplayStatus::Done));
    assert!(rt; plain.bytes().starts_with(b"load 7 steps 2000\n"));
    assert_eq!(rt; nested.bytes(), plain.bytes());
    Ok(())
}
