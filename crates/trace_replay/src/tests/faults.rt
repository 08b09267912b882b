//! Inputs with a faulty line.

use super::{ONE_CLUSTER, replays, text};
use crate::ReplayStatus;
use flat_policy::setup::Field;
use flat_policy::texts::{LineFault, SetupFault};
use std::alloc::Global;
use std::test::Fail;

#[test]
fn faults_of_the_setup_line(rt: HostRuntime) -> Result<(), Fail> {
    let cases = [
        ("", SetupFault::Unfinished),
        ("nul", SetupFault::Unfinished),
        (ONE_CLUSTER, SetupFault::Unfinished),
        ("\n", SetupFault::NotJson),
        ("nul\n", SetupFault::NotJson),
        ("[]\n", SetupFault::Shape(Field::Whole)),
        ("{}\n", SetupFault::Shape(Field::Clusters)),
        (
            "{\"clusters\":[[1,1000]],\"edges\":[],\"groups\":[[0,0,0,0,0,0]],\"threads\":8.0,\"version\":1}\n",
            SetupFault::Shape(Field::Threads),
        ),
        (
            "{\"clusters\":[[1,1000]],\"edges\":[],\"groups\":[[0,0,0,0,0,0]],\"threads\":8,\"version\":2}\n",
            SetupFault::Shape(Field::Times),
        ),
        (
            "{\"clusters\":[[1,1000]],\"edges\":[],\"groups\":[[0,0,0,0,0,0]],\"threads\":8,\"times\":[[[0,0,37500,75000,150000,250000],[0,0,4000,2000,1000,0],[10000,10000,8000,6000,4000,2000]]],\"version\":1}\n",
            SetupFault::Shape(Field::Times),
        ),
        (
            "{\"clusters\":[[9,1000],[8,1000]],\"edges\":[],\"groups\":[[0,0,0,0,0,0]],\"threads\":8,\"version\":1}\n",
            SetupFault::Range(Field::Clusters),
        ),
        (
            "{\"clusters\":[[1,1000]],\"edges\":[[0,0,0,1,0]],\"groups\":[[0,0,0,0,0,0]],\"threads\":8,\"version\":1}\n",
            SetupFault::Range(Field::Edges),
        ),
        (
            "{\"clusters\":[[1,1000]],\"edges\":[],\"groups\":[],\"threads\":8,\"version\":1}\n",
            SetupFault::Range(Field::Groups),
        ),
        (
            "{\"clusters\":[[1,1000]],\"edges\":[],\"groups\":[[0,0,0,0,0,0]],\"threads\":0,\"version\":1}\n",
            SetupFault::Range(Field::Threads),
        ),
        (
            "{\"clusters\":[[1,1000]],\"edges\":[],\"groups\":[[0,0,0,0,0,0]],\"threads\":8,\"times\":[[[0,0,37500,75000,150000,250000],[0,0,4000,2000,1000,0],[10000,10000,8000,6000,4000,999]]],\"version\":2}\n",
            SetupFault::Range(Field::Times),
        ),
        (
            "{\"clusters\":[[1,1000]],\"edges\":[],\"groups\":[[0,0,0,0,0,0]],\"threads\":8,\"version\":3}\n",
            SetupFault::Range(Field::Version),
        ),
    ];
    for (input, what) in cases {
        let status = ReplayStatus::BadSetup { what };
        replays(&rt, rt.alloc(), input.as_bytes(), status, &[])?;
    }
    Ok(())
}

// 65,536 bytes may be a setup line, and one more is too many, with and without a newline behind.
#[test]
fn setup_lines_of_many_bytes(rt: HostRuntime) -> Result<(), Fail> {
    let alloc = rt.alloc();
    let cases = [
        (200, SetupFault::Unfinished, SetupFault::NotJson),
        (65_536, SetupFault::Unfinished, SetupFault::NotJson),
        (65_537, SetupFault::Long, SetupFault::Long),
    ];
    for (count, cut, whole) in cases {
        let mut input = Vec::from_elem(alloc, b'[', count)?;
        let status = ReplayStatus::BadSetup { what: cut };
        replays(&rt, alloc, &input, status, &[])?;
        input.push(b'\n')?;
        let status = ReplayStatus::BadSetup { what: whole };
        replays(&rt, alloc, &input, status, &[])?;
    }
    Ok(())
}

/// The status of a bad line of this number.
fn bad(line: u64, what: LineFault) -> ReplayStatus {
    ReplayStatus::BadLine { line, what }
}

// The first faulty line ends the replay, and the lines before it are written. Of the faults of a
// line that of the grammar comes first, then what the setup doesn't fit, and then the answer.
#[test]
fn faults_of_lines(rt: HostRuntime) -> Result<(), Fail> {
    let alloc = rt.alloc();
    let cases: [(&str, ReplayStatus, &[&str]); 17] = [
        ("1099511627776 0 select\n", bad(2, LineFault::Range), &[]),
        ("01 0 select\n", bad(2, LineFault::Number), &[]),
        ("\n", bad(2, LineFault::Number), &[]),
        ("0 1 select\n", bad(2, LineFault::Range), &[]),
        ("0 1 select = got 1\n", bad(2, LineFault::Range), &[]),
        ("0 1 select = got\n", bad(2, LineFault::Word), &[]),
        ("0 1 jump\n", bad(2, LineFault::Word), &[]),
        ("0 0 select", bad(2, LineFault::Unfinished), &[]),
        ("0 0 jump", bad(2, LineFault::Unfinished), &[]),
        (
            "0 0 select\n0 0 jump\n0 0 select\n",
            bad(3, LineFault::Word),
            &["0 0 select = -"],
        ),
        (
            "0 0 select\n0 0 jump\n01",
            bad(3, LineFault::Word),
            &["0 0 select = -"],
        ),
        (
            "0 0 select\n0",
            bad(3, LineFault::Unfinished),
            &["0 0 select = -"],
        ),
        (
            "0 0 select = got 1\n",
            ReplayStatus::Differs { line: 2 },
            &[],
        ),
        (
            "0 0 select = ok\n0 0 jump\n",
            ReplayStatus::Differs { line: 2 },
            &[],
        ),
        (
            "0 0 select\n0 0 select = off\n",
            ReplayStatus::Differs { line: 3 },
            &["0 0 select = -"],
        ),
        ("0 0 select = -\n", ReplayStatus::Done, &["0 0 select = -"]),
        (
            "1099511627775 0 select\n",
            ReplayStatus::Done,
            &["1099511627775 0 select = -"],
        ),
    ];
    let setup = text(alloc, &[ONE_CLUSTER])?;
    for (lines, status, answered) in cases {
        let mut input = setup.clone()?;
        input.extend_from_slice(lines.as_bytes())?;
        let mut output = setup.clone()?;
        output.extend_from_slice(&text(alloc, answered)?)?;
        replays(&rt, alloc, &input, status, &output)?;
    }
    Ok(())
}

// 256 bytes may be a line, and one more is too many, with and without a newline behind.
#[test]
fn lines_of_many_bytes(rt: HostRuntime) -> Result<(), Fail> {
    let alloc = rt.alloc();
    let setup = text(alloc, &[ONE_CLUSTER])?;
    let cases = [
        (256, LineFault::Unfinished, LineFault::Number),
        (257, LineFault::Long, LineFault::Long),
    ];
    for (count, cut, whole) in cases {
        let mut input = setup.clone()?;
        input.extend_from_slice(&Vec::from_elem(alloc, b'x', count)?)?;
        replays(&rt, alloc, &input, bad(2, cut), &setup)?;
        input.push(b'\n')?;
        replays(&rt, alloc, &input, bad(2, whole), &setup)?;
    }
    Ok(())
}
