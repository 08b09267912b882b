//! Setup lines.

use flat_policy::setup::Field;
use flat_policy::texts::SetupFault;
use setup_json::{SetupError, read_setup, write_setup};
use std::alloc::Global;
use std::test::Fail;

const ONE: &str =
    "{\"clusters\":[[1,1000]],\"edges\":[],\"groups\":[[0,0,0,0,0,0]],\"threads\":8,\"version\":1}";

const TWO: &str =
    "{\"clusters\":[[1,1000],[1,400]],\"edges\":[[0,1,8000,1,16],[1,0,10000000,0,63]],\"groups\":[[0,0,0,0,0,0],[1,0,1,0,1,0]],\"threads\":4096,\"version\":1}";

const FOUR_ACTORS: &str =
    "{\"clusters\":[[2,1000],[2,400]],\"edges\":[[0,1,8000,1,48],[1,0,4000,1,63]],\"groups\":[[0,0,0,0,1,1],[0,0,0,1,1,1]],\"threads\":64,\"version\":1}";

const TIMED: &str =
    "{\"clusters\":[[1,1000]],\"edges\":[],\"groups\":[[0,0,0,0,0,0]],\"threads\":8,\"times\":[[[0,0,37500,75000,150000,250000],[0,0,4000,2000,1000,0],[10000,10000,8000,6000,4000,2000]]],\"version\":2}";

const WARPED: &str =
    "{\"clusters\":[[1,1000]],\"edges\":[],\"groups\":[[0,0,0,0,0,0]],\"threads\":8,\"times\":[[[0,0,37500,75000,150000,250000],[0,8000,4000,2000,1000,0],[10000,10000,8000,6000,4000,2000]]],\"version\":2}";

#[test]
fn setups_are_written_as_their_canonical_text(rt: HostRuntime) -> Result<(), Fail> {
    let cases = [
        (ONE, ONE),
        (TWO, TWO),
        (FOUR_ACTORS, FOUR_ACTORS),
        (TIMED, TIMED),
        (WARPED, WARPED),
        (
            "{\"version\":1, \"threads\":8,\"groups\":[[0,0,0,0,0,0]],\"edges\":[],\"clusters\":[[1,1000]]}",
            ONE,
        ),
        (
            " {\"version\" : 1,\"threads\":8, \"groups\":[[0,0,0,0,0,0]],\"edges\":[ ],\n\"clusters\":[[1,1000]]}",
            ONE,
        ),
    ];
    for (line, text) in cases {
        let setup = read_setup(rt.alloc(), line.as_bytes())?;
        let written = write_setup(rt.alloc(), &setup)?;
        assert_eq!(rt; written.as_slice(), text.as_bytes());
    }
    Ok(())
}

/// The greatest setup: eight clusters, an edge from each to each other, 64 groups, the most
/// threads, and times at their greatest.
fn greatest(alloc: Global) -> Result<String, Fail> {
    let mut line = String::from_str(
        alloc,
        "{\"clusters\":[[2,1000],[2,1000],[2,1000],[2,1000],[2,1000],[2,1000],[2,1000],[2,1000]],\"edges\":[",
    )?;
    for from in 0..8 {
        for to in 0..8 {
            if from != to {
                let comma = if from == 0 && to == 1 { "" } else { "," };
                line.push_str(format!(in alloc; "{comma}[{from},{to},10000000,1,63]")?.as_str())?;
            }
        }
    }
    line.push_str("],\"groups\":[[7,6,5,4,3,2]")?;
    for _ in 1..64 {
        line.push_str(",[7,6,5,4,3,2]")?;
    }
    line.push_str("],\"threads\":4096,\"times\":[")?;
    let times =
        "[[0,10000000,10000000,10000000,10000000,10000000],[0,1000000,1000000,1000000,1000000,1000000],[100000,100000,100000,100000,100000,100000]]";
    line.push_str(times)?;
    for _ in 1..8 {
        line.push_str(",")?;
        line.push_str(times)?;
    }
    line.push_str("],\"version\":2}")?;
    Ok(line)
}

#[test]
fn the_greatest_setup(rt: HostRuntime) -> Result<(), Fail> {
    let line = greatest(rt.alloc())?;
    let setup = read_setup(rt.alloc(), line.as_bytes())?;
    assert_eq!(rt;
        (setup.edge_count(), setup.groups(), setup.threads()),
        (56, 64, 4096)
    );
    let written = write_setup(rt.alloc(), &setup)?;
    assert_eq!(rt; written.as_slice(), line.as_bytes());
    Ok(())
}

#[test]
fn the_first_fault_of_a_line(rt: HostRuntime) {
    let cases = [
        ("nul", SetupFault::NotJson),
        ("", SetupFault::NotJson),
        ("[]", SetupFault::Shape(Field::Whole)),
        ("{}", SetupFault::Shape(Field::Clusters)),
        ("{\"cluster\":[]}", SetupFault::Shape(Field::Whole)),
        (
            "{\"clusters\":[[1,1000]],\"edges\":[],\"groups\":[[0,0,0,0,0,0]],\"threads\":8,\"name\":0,\"version\":1}",
            SetupFault::Shape(Field::Whole),
        ),
        (
            "{\"clusters\":[],\"edges\":[[0,1]],\"groups\":0}",
            SetupFault::Shape(Field::Edges),
        ),
        (
            "{\"clusters\":[],\"edges\":[],\"groups\":[[0,0,0,0,0]]}",
            SetupFault::Shape(Field::Groups),
        ),
        (
            "{\"clusters\":[[1,1000,1]],\"edges\":[],\"groups\":[[0,0,0,0,0,0]],\"threads\":8,\"version\":1}",
            SetupFault::Shape(Field::Clusters),
        ),
        (
            "{\"clusters\":[[1,1000]],\"edges\":[],\"groups\":[[0,0,0,0,0,0]],\"threads\":8.0,\"version\":1}",
            SetupFault::Shape(Field::Threads),
        ),
        (
            "{\"clusters\":[[1,1000]],\"edges\":[],\"groups\":[[0,0,0,0,0,0]],\"threads\":18446744073709551616,\"version\":1}",
            SetupFault::Shape(Field::Threads),
        ),
        (
            "{\"clusters\":[],\"edges\":[],\"groups\":[],\"threads\":8,\"version\":-1}",
            SetupFault::Shape(Field::Version),
        ),
        (
            "{\"clusters\":[[1,1000]],\"edges\":[],\"groups\":[[0,0,0,0,0,0]],\"threads\":8,\"version\":2.0}",
            SetupFault::Shape(Field::Version),
        ),
        (
            "{\"clusters\":[[1,1000]],\"edges\":[],\"groups\":[[0,0,0,0,0,0]],\"threads\":8,\"version\":2}",
            SetupFault::Shape(Field::Times),
        ),
        (
            "{\"clusters\":[[1,1000]],\"edges\":[],\"groups\":[[0,0,0,0,0,0]],\"threads\":8,\"times\":[[[0,0,37500,75000,150000,250000],[0,0,4000,2000,1000,0],[10000,10000,8000,6000,4000,2000]]],\"version\":1}",
            SetupFault::Shape(Field::Times),
        ),
        (
            "{\"clusters\":[[1,1000]],\"edges\":[],\"groups\":[[0,0,0,0,0,0]],\"threads\":8,\"times\":[[[0,0,37500,75000,150000,250000],[0,0,4000,2000,1000,0],[10000,10000,8000,6000,4000,2000]]],\"version\":3}",
            SetupFault::Shape(Field::Times),
        ),
        (
            "{\"clusters\":[[1,1000]],\"edges\":[],\"groups\":[[0,0,0,0,0,0]],\"threads\":8,\"times\":[[[0,0,37500,75000,150000,250000],[0,0,4000,2000,1000,0],[10000,10000,8000,6000,4000,2000]]]}",
            SetupFault::Shape(Field::Times),
        ),
        (
            "{\"clusters\":[[1,1000]],\"edges\":[],\"groups\":[[0,0,0,0,0,0]],\"threads\":8,\"times\":[[[0,0,37500,75000,150000,250000,0],[0,0,4000,2000,1000,0],[10000,10000,8000,6000,4000,2000]]],\"version\":2}",
            SetupFault::Shape(Field::Times),
        ),
        (
            "{\"clusters\":[[9,1000],[8,1000]],\"edges\":[],\"groups\":[[0,0,0,0,0,0]],\"threads\":8,\"version\":1}",
            SetupFault::Range(Field::Clusters),
        ),
        (
            "{\"clusters\":[[1,1000]],\"edges\":[[0,0,0,1,0]],\"groups\":[[0,0,0,0,0,0]],\"threads\":8,\"version\":1}",
            SetupFault::Range(Field::Edges),
        ),
        (
            "{\"clusters\":[[1,1000]],\"edges\":[[0,0,0,1,0]],\"groups\":[],\"threads\":0,\"version\":3}",
            SetupFault::Range(Field::Edges),
        ),
        (
            "{\"clusters\":[[1,1000]],\"edges\":[],\"groups\":[],\"threads\":8,\"version\":1}",
            SetupFault::Range(Field::Groups),
        ),
        (
            "{\"clusters\":[[1,1000]],\"edges\":[],\"groups\":[[0,0,0,0,0,0]],\"threads\":0,\"version\":1}",
            SetupFault::Range(Field::Threads),
        ),
        (
            "{\"clusters\":[[1,1000]],\"edges\":[],\"groups\":[[0,0,0,0,0,0]],\"threads\":18446744073709551615,\"version\":1}",
            SetupFault::Range(Field::Threads),
        ),
        (
            "{\"clusters\":[[1,1000]],\"edges\":[],\"groups\":[[0,0,0,0,0,0]],\"threads\":8,\"times\":[[[0,0,37500,75000,150000,250000],[0,0,4000,2000,1000,0],[10000,10000,8000,6000,4000,999]]],\"version\":2}",
            SetupFault::Range(Field::Times),
        ),
        (
            "{\"clusters\":[[1,1000]],\"edges\":[],\"groups\":[[0,0,0,0,0,0]],\"threads\":8,\"times\":[],\"version\":2}",
            SetupFault::Range(Field::Times),
        ),
        (
            "{\"clusters\":[[1,1000]],\"edges\":[],\"groups\":[[0,0,0,0,0,0]],\"threads\":8,\"version\":3}",
            SetupFault::Range(Field::Version),
        ),
    ];
    for (line, fault) in cases {
        let read = read_setup(rt.alloc(), line.as_bytes());
        assert_eq!(rt; read.err(), Some(SetupError::Fault(fault)), "{line}");
    }
}

#[test]
fn bytes_that_are_no_json(rt: HostRuntime) {
    let cases: [&[u8]; 3] = [b"\"\xff\"", &[b'['; 200], b"{\"version\":1"];
    for line in cases {
        let read = read_setup(rt.alloc(), line);
        assert_eq!(rt; read.err(), Some(SetupError::Fault(SetupFault::NotJson)));
    }
}

#[test]
fn faults_have_their_texts(rt: HostRuntime) -> Result<(), Fail> {
    let cases = [
        (SetupFault::Long, "long"),
        (SetupFault::Unfinished, "unfinished"),
        (SetupFault::NotJson, "not json"),
        (SetupFault::Shape(Field::Whole), "shape of whole"),
        (SetupFault::Shape(Field::Clusters), "shape of clusters"),
        (SetupFault::Shape(Field::Edges), "shape of edges"),
        (SetupFault::Shape(Field::Groups), "shape of groups"),
        (SetupFault::Shape(Field::Threads), "shape of threads"),
        (SetupFault::Shape(Field::Times), "shape of times"),
        (SetupFault::Shape(Field::Version), "shape of version"),
        (SetupFault::Range(Field::Whole), "range of whole"),
        (SetupFault::Range(Field::Clusters), "range of clusters"),
        (SetupFault::Range(Field::Edges), "range of edges"),
        (SetupFault::Range(Field::Groups), "range of groups"),
        (SetupFault::Range(Field::Threads), "range of threads"),
        (SetupFault::Range(Field::Times), "range of times"),
        (SetupFault::Range(Field::Version), "range of version"),
    ];
    for (fault, text) in cases {
        assert_eq!(rt; fault.to_string(rt.alloc())?.as_str(), text);
        assert_eq!(rt;
            SetupError::Fault(fault).to_string(rt.alloc())?.as_str(),
            text
        );
    }
    assert_eq!(rt;
        SetupError::Memory.to_string(rt.alloc())?.as_str(),
        "out of memory"
    );
    Ok(())
}
