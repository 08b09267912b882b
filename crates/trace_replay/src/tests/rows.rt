//! Inputs without a fault.

use super::{ARRIVAL_ORDER, ONE_CLUSTER, WARP_AND_STARVATION, asked, replays, text};
use crate::{ReplayStatus, replay_main};
use ports::{ByteSink, SureSource};
use std::alloc::Global;
use std::process::Abort;
use std::test::Fail;

/// Two clusters of one processor, the second at two fifths of the speed, and a group that prefers each.
const TWO_CLUSTERS: &str =
    "{\"clusters\":[[1,1000],[1,400]],\"edges\":[[0,1,8000,1,16],[1,0,0,1,0]],\"groups\":[[0,0,0,0,0,0],[1,1,1,1,1,1]],\"threads\":8,\"version\":1}";

/// One cluster with the times of version 1, but without a warp for FG.
const UNWARPED: &str =
    "{\"clusters\":[[1,1000]],\"edges\":[],\"groups\":[[0,0,0,0,0,0]],\"threads\":8,\"times\":[[[0,0,37500,75000,150000,250000],[0,0,4000,2000,1000,0],[10000,10000,8000,6000,4000,2000]]],\"version\":2}";

/// A thread runs, sleeps and runs again, in the place of an actor that looks for work.
const ONE_THREAD: [&str; 22] = [
    ONE_CLUSTER,
    "0 0 make 1 0 FG 31 - = ok",
    "0 0 aim = to 0",
    "0 0 enter 0 tail = pri 31",
    "0 0 blocked = left 0",
    "0 0 select = got 1",
    "5000 0 ran 5000 = work 5000",
    "5000 0 sleep = ok",
    "5000 0 blocked = left 1",
    "5000 0 select = -",
    "7000 0 wake 1 = ok",
    "7000 0 aim = to 0",
    "7000 0 enter 0 tail = pri 31",
    "7000 0 blocked = left 0",
    "7000 0 select = got 1",
    "17000 0 ran 10000 = work 15000",
    "17000 0 aim = to 0",
    "17000 0 enter 0 tail = pri 31",
    "17000 0 blocked = left 0",
    "17000 0 select = got 1",
    "19000 0 ran 2000 = work 17000",
    "19000 0 end = ok",
];

/// Without a warp FG doesn't pass BG, which was due at 250000.
const TIMES: [&str; 6] = [
    UNWARPED,
    "0 0 make 1 0 BG 31 - = ok",
    "0 0 enter 0 tail = pri 31",
    "260000 0 make 2 0 FG 31 - = ok",
    "260000 0 enter 0 tail = pri 31",
    "260000 0 select = got 1",
];

// The lines without answers get them, and the lines with their answers stay as they are.
#[test]
fn rows_are_answered_and_stay(rt: HostRuntime) -> Result<(), Fail> {
    let rows: [&[&str]; 4] = [&ARRIVAL_ORDER, &ONE_THREAD, &TIMES, &WARP_AND_STARVATION];
    for row in rows {
        let output = text(rt.alloc(), row)?;
        let input = asked(rt.alloc(), row)?;
        replays(&rt, rt.alloc(), &input, ReplayStatus::Done, &output)?;
        replays(&rt, rt.alloc(), &output, ReplayStatus::Done, &output)?;
    }
    Ok(())
}

// A setup is written as its canonical text, and a step with its effective moment: no earlier than
// the last of its actor and the last of its place, where refused steps don't count.
#[test]
fn lines_are_written_anew(rt: HostRuntime) -> Result<(), Fail> {
    let cases: [(&[&str], &[&str]); 2] = [
        (
            &[
                "{\"version\":1, \"threads\":8,\"groups\":[[0,0,0,0,0,0]],\"edges\":[],\"clusters\":[[1,1000]]}",
            ],
            &[ONE_CLUSTER],
        ),
        (
            &[
                TWO_CLUSTERS,
                "100 0 select",
                "200 0 end",
                "50 0 select",
                "50 1 offer 0",
            ],
            &[
                TWO_CLUSTERS,
                "100 0 select = -",
                "200 0 end = no HandEmpty",
                "100 0 select = -",
                "100 1 offer 0 = -",
            ],
        ),
    ];
    for (input, output) in cases {
        let input = text(rt.alloc(), input)?;
        let output = text(rt.alloc(), output)?;
        replays(&rt, rt.alloc(), &input, ReplayStatus::Done, &output)?;
    }
    Ok(())
}

/// The lines of eight clusters of one processor, each of which may give up threads to each other,
/// but none of any bucket. Each actor looks for a thread in each other cluster, and there is none.
fn eight_clusters(rt: &HostRuntime) -> Result<(String, String), Fail> {
    let alloc = rt.alloc();
    let mut setup = String::from_str(alloc, "{\"clusters\":[[1,1000]")?;
    for _ in 1..8 {
        setup.push_str(",[1,1000]")?;
    }
    setup.push_str("],\"edges\":[")?;
    let mut offers = String::new(alloc);
    for from in 0..8 {
        for to in 0..8 {
            if from != to {
                let comma = if from == 0 && to == 1 { "" } else { "," };
                setup.push_str(format!(in alloc; "{comma}[{from},{to},0,0,0]")?.as_str())?;
                offers.push_str(format!(in alloc; "0 {to} offer {from} = -\n")?.as_str())?;
            }
        }
    }
    setup.push_str("],\"groups\":[[0,0,0,0,0,0]],\"threads\":8,\"version\":1}")?;
    Ok((setup, offers))
}

#[test]
fn clusters_with_every_edge(rt: HostRuntime) -> Result<(), Fail> {
    let (setup, offers) = eight_clusters(&rt)?;
    let mut lines = Vec::new(rt.alloc());
    lines.push(setup.as_str())?;
    for line in offers.lines() {
        lines.push(line)?;
    }
    let input = asked(rt.alloc(), &lines)?;
    let output = text(rt.alloc(), &lines)?;
    replays(&rt, rt.alloc(), &input, ReplayStatus::Done, &output)
}

/// The setup of one cluster, and one step.
const TWO_LINES: &str =
    "{\"clusters\":[[1,1000]],\"edges\":[],\"groups\":[[0,0,0,0,0,0]],\"threads\":8,\"version\":1}\n0 0 select\n";

// The caller that the crate's first page shows.
#[test]
fn two_lines_into_a_sink(rt: HostRuntime) -> Result<(), Fail> {
    let alloc = rt.alloc();
    let input = Vec::from_slice(alloc, TWO_LINES.as_bytes())?;
    let mut source = SureSource::new(input);
    let mut sink = ByteSink::new(alloc, 200, 200, Vec::new(alloc))?;
    let status = replay_main(alloc, &[], &mut source, &mut sink);
    assert_eq!(rt; status, ReplayStatus::Done);
    assert!(rt; sink.bytes().ends_with(b"0 0 select = -\n"));
    Ok(())
}
