//! The rows, and the setups that they are played on, each as its line of text.

use super::is_answered;
use ports::{ByteSink, SureSource};
use std::alloc::{AllocError, Global};
use std::process::Abort;
use std::test::Fail;
use trace_replay::replay_main;

mod buckets;
mod clusters;
mod many;
mod order;
mod usage;

/// One cluster of one processor at full speed, one group, and room for 8 threads.
const ONE_CLUSTER: &str =
    "{\"clusters\":[[1,1000]],\"edges\":[],\"groups\":[[0,0,0,0,0,0]],\"threads\":8,\"version\":1}";

/// The same with room for one thread.
const ONE_THREAD: &str =
    "{\"clusters\":[[1,1000]],\"edges\":[],\"groups\":[[0,0,0,0,0,0]],\"threads\":1,\"version\":1}";

/// One cluster of one processor at full speed, and two groups.
const TWO_GROUPS: &str =
    "{\"clusters\":[[1,1000]],\"edges\":[],\"groups\":[[0,0,0,0,0,0],[0,0,0,0,0,0]],\"threads\":8,\"version\":1}";

/// One cluster with the times of version 1, also a WARP of 8000 microseconds for FG.
const WITH_WARP: &str =
    "{\"clusters\":[[1,1000]],\"edges\":[],\"groups\":[[0,0,0,0,0,0]],\"threads\":8,\"times\":[[[0,0,37500,75000,150000,250000],[0,8000,4000,2000,1000,0],[10000,10000,8000,6000,4000,2000]]],\"version\":2}";

/// The same without a WARP for FG.
const WITHOUT_WARP: &str =
    "{\"clusters\":[[1,1000]],\"edges\":[],\"groups\":[[0,0,0,0,0,0]],\"threads\":8,\"times\":[[[0,0,37500,75000,150000,250000],[0,0,4000,2000,1000,0],[10000,10000,8000,6000,4000,2000]]],\"version\":2}";

/// Two clusters of one processor, the second at two fifths of the speed, and a group that prefers each. Threads move
/// from the first to the second at a weight of 8000 microseconds, and those of UT may be stolen.
const TWO_CLUSTERS: &str =
    "{\"clusters\":[[1,1000],[1,400]],\"edges\":[[0,1,8000,1,16],[1,0,0,1,0]],\"groups\":[[0,0,0,0,0,0],[1,1,1,1,1,1]],\"threads\":8,\"version\":1}";

/// The same with a weight of 20000 microseconds.
const FAR_CLUSTERS: &str =
    "{\"clusters\":[[1,1000],[1,400]],\"edges\":[[0,1,20000,1,16],[1,0,0,1,0]],\"groups\":[[0,0,0,0,0,0],[1,1,1,1,1,1]],\"threads\":8,\"version\":1}";

/// The bytes of a setup line and the lines of a row, each with its newline.
fn text(alloc: Global, setup: &str, row: &[&str]) -> Result<Vec<u8>, AllocError> {
    let mut bytes = Vec::from_slice(alloc, setup.as_bytes())?;
    bytes.push(b'\n')?;
    for line in row {
        bytes.extend_from_slice(line.as_bytes())?;
        bytes.push(b'\n')?;
    }
    Ok(bytes)
}

/// Asserts that an input is replayed without a fault, and what is written for it.
fn replays(rt: &impl Abort, alloc: Global, input: &[u8], output: &[u8]) -> Result<(), Fail> {
    let mut source = SureSource::new(Vec::from_slice(alloc, input)?);
    let mut sink = ByteSink::new(alloc, 1_048_576, 4096, Vec::new(alloc))?;
    let status = replay_main(alloc, &[], &mut source, &mut sink);
    assert!(rt; is_answered(status, sink.bytes(), output));
    Ok(())
}

/// Asserts that each line of a row is answered as it says, at its own moment.
fn plays_whole(rt: &impl Abort, alloc: Global, setup: &str, row: &[&str]) -> Result<(), Fail> {
    let text = text(alloc, setup, row)?;
    replays(rt, alloc, &text, &text)
}
