//! The same bytes in pieces of any size, and bytes that end early.

use super::{
    ARRIVAL_ORDER, ONE_CLUSTER, WARP_AND_STARVATION, asked, count_left, replays, sink, source, text,
};
use crate::{ReplayStatus, replay_main};
use flat_policy::texts::{LineFault, SetupFault};
use ports::SureSource;
use std::alloc::Global;
use std::process::Abort;
use std::test::Fail;

#[test]
fn pieces_of_any_size_give_one_output(rt: HostRuntime) -> Result<(), Fail> {
    let alloc = rt.alloc();
    let input = asked(alloc, &WARP_AND_STARVATION)?;
    let output = text(alloc, &WARP_AND_STARVATION)?;
    for (taken, put) in [(1, 4096), (2, 3), (7, 1), (64, 64), (4096, 1)] {
        let mut source = source(alloc, &input, taken, &[])?;
        let mut sink = sink(alloc, put, &[])?;
        let status = replay_main(alloc, &[], &mut source, &mut sink);
        assert_eq!(rt; status, ReplayStatus::Done, "{taken}, {put}");
        assert_eq!(rt; sink.bytes(), output.as_slice(), "{taken}, {put}");
    }
    Ok(())
}

/// How the replay of an input that ends behind these whole lines ends. `is_whole` tells that
/// nothing stands behind them.
fn status_of_cut(lines: u64, is_whole: bool) -> ReplayStatus {
    if lines == 0 {
        ReplayStatus::BadSetup {
            what: SetupFault::Unfinished,
        }
    } else if is_whole {
        ReplayStatus::Done
    } else {
        ReplayStatus::BadLine {
            line: lines.saturating_add(1),
            what: LineFault::Unfinished,
        }
    }
}

// Each front of the input is answered for its whole lines.
#[test]
fn an_input_cut_anywhere(rt: HostRuntime) -> Result<(), Fail> {
    let alloc = rt.alloc();
    let input = asked(alloc, &ARRIVAL_ORDER)?;
    let mut cut = Vec::new(alloc);
    let mut lines = 0;
    let mut whole = true;
    for byte in input.iter() {
        let output = text(alloc, ARRIVAL_ORDER.get(..lines).unwrap_or_default())?;
        let status = status_of_cut(lines as u64, whole);
        replays(&rt, alloc, &cut, status, &output)?;
        cut.push(*byte)?;
        whole = *byte == b'\n';
        if whole {
            lines = lines.saturating_add(1);
        }
    }
    Ok(())
}

// The faulty line is judged before the input is read to its end.
#[test]
fn few_bytes_are_taken_behind_a_fault(rt: HostRuntime) -> Result<(), Fail> {
    let alloc = rt.alloc();
    let mut input = text(alloc, &[ONE_CLUSTER, "0 0 jump"])?;
    for _ in 0..100_000 {
        input.extend_from_slice(b"0 0 select\n")?;
    }
    assert_eq!(rt; input.len(), 84 + 9 + 1_100_000);
    let mut source = SureSource::new(input);
    let mut sink = sink(alloc, 4096, &[])?;
    let status = replay_main(alloc, &[], &mut source, &mut sink);
    let what = LineFault::Word;
    assert_eq!(rt; status, ReplayStatus::BadLine { line: 2, what });
    assert!(rt; count_left(&mut source) >= 1_100_000 - 4095);
    Ok(())
}
