//! Worked inputs, replayed whole: how the replay ends, and what it writes.

ghost use Rattle.std.specs.Prelude.{◌≤◌};

use super::{ReplayStatus, replay_main};
use ports::{ByteSink, ByteSource, Source};
use std::alloc::{AllocError, Global};
use std::process::Abort;
use std::test::Fail;

mod cuts;
mod devices;
mod faults;
mod rows;
mod words;

/// The setup of one cluster with one processor at full speed, one group, and room for 8 threads.
const ONE_CLUSTER: &str =
    "{\"clusters\":[[1,1000]],\"edges\":[],\"groups\":[[0,0,0,0,0,0]],\"threads\":8,\"version\":1}";

/// More bytes than any output of these tests has.
const ROOM: usize = 65_536;

/// Equals are served as they came, and an empty queue has nobody.
const ARRIVAL_ORDER: [&str; 10] = [
    ONE_CLUSTER,
    "0 0 select = -",
    "0 0 make 1 0 FG 31 - = ok",
    "0 0 select = no HandFull",
    "0 0 enter 0 tail = pri 31",
    "0 0 make 2 0 FG 31 - = ok",
    "0 0 enter 0 tail = pri 31",
    "0 0 select = got 1",
    "0 0 end = ok",
    "0 0 select = got 2",
];

/// BG is due at 250000. FG passes it until its warp is spent at 268000; then BG is starved, and its
/// window ends at 270000.
const WARP_AND_STARVATION: [&str; 20] = [
    ONE_CLUSTER,
    "0 0 make 1 0 BG 31 - = ok",
    "0 0 enter 0 tail = pri 31",
    "0 0 make 3 0 BG 31 - = ok",
    "0 0 enter 0 tail = pri 31",
    "0 0 make 4 0 BG 31 - = ok",
    "0 0 enter 0 tail = pri 31",
    "260000 0 make 2 0 FG 31 - = ok",
    "260000 0 enter 0 tail = pri 31",
    "260000 0 select = got 2",
    "260000 0 enter 0 tail = pri 31",
    "267999 0 select = got 2",
    "267999 0 enter 0 tail = pri 31",
    "268000 0 select = got 1",
    "268000 0 end = ok",
    "269999 0 select = got 3",
    "269999 0 end = ok",
    "270000 0 select = got 2",
    "270000 0 end = ok",
    "270000 0 select = got 4",
];

/// The bytes of lines, each with its newline.
fn text(alloc: Global, lines: &[&str]) -> Result<Vec<u8>, AllocError> {
    let mut bytes = Vec::new(alloc);
    for line in lines {
        bytes.extend_from_slice(line.as_bytes())?;
        bytes.push(b'\n')?;
    }
    Ok(bytes)
}

/// The bytes of lines without their answers, each with its newline.
fn asked(alloc: Global, lines: &[&str]) -> Result<Vec<u8>, AllocError> {
    let mut bytes = Vec::new(alloc);
    for line in lines {
        let step = match line.split_once(" = ") {
            Some((step, _)) => step,
            None => line,
        };
        bytes.extend_from_slice(step.as_bytes())?;
        bytes.push(b'\n')?;
    }
    Ok(bytes)
}

/// A source of these bytes, at most `piece` at a time, whose takes of these numbers fail.
fn source(
    alloc: Global,
    input: &[u8],
    piece: usize,
    fails: &[u64],
) -> Result<ByteSource, AllocError>
    requires { 1 ≤ piece }
{
    let bytes = Vec::from_slice(alloc, input)?;
    Ok(ByteSource::new(bytes, piece, Vec::from_slice(alloc, fails)?))
}

/// A sink that takes at most `piece` bytes at a time, and whose puts of these numbers fail.
fn sink(alloc: Global, piece: usize, fails: &[u64]) -> Result<ByteSink, AllocError>
    requires { 1 ≤ piece }
{
    ByteSink::new(alloc, ROOM, piece, Vec::from_slice(alloc, fails)?)
}

/// Asserts how the replay of an input ends, and what it writes.
fn replays(
    rt: &impl Abort,
    alloc: Global,
    input: &[u8],
    status: ReplayStatus,
    output: &[u8],
) -> Result<(), Fail> {
    let mut source = source(alloc, input, 4096, &[])?;
    let mut sink = sink(alloc, 4096, &[])?;
    assert_eq!(rt; replay_main(alloc, &[], &mut source, &mut sink), status);
    assert_eq!(rt; sink.bytes(), output);
    Ok(())
}

/// How many bytes a source still gives, in its next 400 takes and up to its first failure.
fn count_left<S: Source>(source: &mut S) -> usize {
    let mut left: usize = 0;
    let mut into = [0; 4096];
    for _ in 0..400 {
        match source.take(&mut into) {
            Ok(count) => left = left.saturating_add(count),
            Err(_) => break,
        }
    }
    left
}
