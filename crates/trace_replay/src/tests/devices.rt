//! Sources and sinks that fail, and inputs that are too long.

use super::{ONE_CLUSTER, WARP_AND_STARVATION, asked, replays, sink, source, text};
use crate::{ReplayStatus, replay_main};
use ports::{CountSink, SureSource};
use std::test::Fail;

/// How many newlines bytes have.
fn count_lines(bytes: &[u8]) -> usize {
    bytes.iter().filter(|byte| **byte == b'\n').count()
}

// The whole lines that were taken before are answered and written. The last take is that which
// would tell the input's end.
#[test]
fn each_take_fails_in_turn(rt: HostRuntime) -> Result<(), Fail> {
    let alloc = rt.alloc();
    let input = asked(alloc, &WARP_AND_STARVATION)?;
    for fail in 0..=input.len().div_ceil(64) {
        let mut source = source(alloc, &input, 64, &[fail as u64])?;
        let mut sink = sink(alloc, 4096, &[])?;
        let status = replay_main(alloc, &[], &mut source, &mut sink);
        assert_eq!(rt; status, ReplayStatus::ReadFault, "{fail}");
        let taken = &input[..fail.saturating_mul(64).min(input.len())];
        let lines = WARP_AND_STARVATION
            .get(..count_lines(taken))
            .unwrap_or_default();
        assert_eq!(rt; sink.bytes(), text(alloc, lines)?.as_slice(), "{fail}");
    }
    Ok(())
}

/// How many bytes a sink took before its put of this number, where it takes 32 bytes at a time: the
/// setup line of 84 bytes first, and then all answers, since the whole input is at hand.
fn count_put(put: usize) -> usize {
    let setup = put.saturating_mul(32).min(84);
    let answers = put.saturating_sub(3).saturating_mul(32);
    setup.saturating_add(answers)
}

#[test]
fn each_put_fails_in_turn(rt: HostRuntime) -> Result<(), Fail> {
    let alloc = rt.alloc();
    let input = asked(alloc, &WARP_AND_STARVATION)?;
    let output = text(alloc, &WARP_AND_STARVATION)?;
    let answers = output.len().saturating_sub(84).div_ceil(32);
    for fail in 0..answers.saturating_add(3) {
        let mut source = source(alloc, &input, 4096, &[])?;
        let mut sink = sink(alloc, 32, &[fail as u64])?;
        let status = replay_main(alloc, &[], &mut source, &mut sink);
        assert_eq!(rt; status, ReplayStatus::WriteFault, "{fail}");
        let taken = output.get(..count_put(fail));
        assert_eq!(rt; Some(sink.bytes()), taken, "{fail}");
    }
    Ok(())
}

// Takes 0 to 2 give the whole input and twice nothing. Puts 0 and 1 are the setup line and the answer.
#[test]
fn the_first_of_two_faults_ends_the_replay(rt: HostRuntime) -> Result<(), Fail> {
    let alloc = rt.alloc();
    let input = text(alloc, &[ONE_CLUSTER, "0 0 select"])?;
    let output = text(alloc, &[ONE_CLUSTER, "0 0 select = -"])?;
    let cases = [
        (0, 0, ReplayStatus::ReadFault, 0),
        (1, 0, ReplayStatus::WriteFault, 0),
        (1, 1, ReplayStatus::WriteFault, 84),
        (1, 2, ReplayStatus::ReadFault, 99),
        (2, 2, ReplayStatus::Done, 99),
    ];
    for (take, put, ends, taken) in cases {
        let mut source = source(alloc, &input, 4096, &[take])?;
        let mut sink = sink(alloc, 4096, &[put])?;
        let status = replay_main(alloc, &[], &mut source, &mut sink);
        assert_eq!(rt; status, ends, "{take}, {put}");
        assert_eq!(rt; Some(sink.bytes()), output.get(..taken), "{take}, {put}");
    }
    Ok(())
}

// Of 67,108,864 bytes 84 are the setup line, and 52 are each of 1,290,553 whole lines, which are
// answered. The bytes of one line more are too many.
#[test]
fn an_input_that_is_too_long(rt: HostRuntime) -> Result<(), Fail> {
    let alloc = rt.alloc();
    let line = b"1099511627775 0 pull 4294967295 = no NotQueued none\n";
    let mut input = text(alloc, &[ONE_CLUSTER])?;
    for _ in 0..1_290_554 {
        input.extend_from_slice(line)?;
    }
    let mut source = SureSource::new(input);
    let mut sink = CountSink::new();
    let status = replay_main(alloc, &[], &mut source, &mut sink);
    assert_eq!(rt; status, ReplayStatus::TooLong);
    assert_eq!(rt; sink.taken(), 84 + 52 * 1_290_553);
    Ok(())
}
