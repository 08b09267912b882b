//! What the words after the program's name ask for.

use super::{ARRIVAL_ORDER, asked, count_left, sink, source, text};
use crate::{ReplayStatus, replay_main};
use std::alloc::{AllocError, Global};
use std::test::Fail;

/// The words of a line.
fn words(alloc: Global, line: &str) -> Result<Vec<String>, AllocError> {
    let mut words = Vec::new(alloc);
    for word in line.split_whitespace() {
        words.push(String::from_str(alloc, word)?)?;
    }
    Ok(words)
}

// Words that the command doesn't take leave the source and the sink alone.
#[test]
fn other_words_touch_nothing(rt: HostRuntime) -> Result<(), Fail> {
    let alloc = rt.alloc();
    let input = asked(alloc, &ARRIVAL_ORDER)?;
    for line in [
        "--load 7",
        "--steps 1",
        "--help",
        "trace",
        "--load 7 --steps 0",
    ] {
        let words = words(alloc, line)?;
        let mut source = source(alloc, &input, 4096, &[])?;
        let mut sink = sink(alloc, 4096, &[])?;
        let status = replay_main(alloc, &words, &mut source, &mut sink);
        assert_eq!(rt; status, ReplayStatus::Usage, "{line}");
        assert_eq!(rt; count_left(&mut source), input.len(), "{line}");
        assert!(rt; sink.bytes().is_empty(), "{line}");
    }
    Ok(())
}

// The load reads nothing, and its first step makes a thread.
#[test]
fn both_options_make_the_load(rt: HostRuntime) -> Result<(), Fail> {
    let alloc = rt.alloc();
    let input = asked(alloc, &ARRIVAL_ORDER)?;
    let summary = [
        "load 7 steps 1",
        "make 1",
        "enter 0",
        "select 0 of 0",
        "offer 0 of 0",
        "ran 0",
        "sleep 0",
        "wake 0",
        "end 0",
        "refresh 0",
        "queued 0",
    ];
    let words = words(alloc, "--load 7 --steps 1")?;
    let mut source = source(alloc, &input, 4096, &[])?;
    let mut sink = sink(alloc, 4096, &[])?;
    let status = replay_main(alloc, &words, &mut source, &mut sink);
    assert_eq!(rt; status, ReplayStatus::Done);
    assert_eq!(rt; count_left(&mut source), input.len());
    assert_eq!(rt; sink.bytes(), text(alloc, &summary)?.as_slice());
    Ok(())
}
