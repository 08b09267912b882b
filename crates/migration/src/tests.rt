//! Worked examples of the calls.

ghost use Rattle.std.specs.Prelude.{◌≡◌, ◌≤◌};

use super::*;
use edge_matrix::Edges;
use flat_policy::setup::{BuildError, Setup};
use sched_base::{Bucket, Facts};
use std::alloc::Global;
use std::test::Fail;

/// The edges of `count` clusters of one processor.
fn edges_between(alloc: Global, count: usize, edges: &[[u64; 5]]) -> Result<Edges, BuildError>
    requires { count ≤ 4 }
{
    let clusters = [[1, 1000]; 4];
    let setup = Setup::build(alloc, &clusters[..count], edges, &[[0; 6]], 8, 1)?;
    Ok(Edges::of(&setup))
}

/// A foreground thread's facts.
fn facts(bound: Option<u8>, prefer: u8) -> Facts
    ensures { result.prefer ≡ prefer }
{
    Facts {
        name: 3,
        group: 0,
        bucket: Bucket::Fg,
        base: 31,
        bound,
        prefer,
        usage: 0,
        seen: 0,
        pending_ran: 0,
        pending_blocked: 0,
        work: 0,
    }
}

fn first(cluster: u8) -> Result<u8, LookFirst> {
    Err(LookFirst { cluster })
}

#[test]
fn looks_come_first(rt: HostRuntime) -> Result<(), Fail> {
    for (weight, aim) in [(8000, 1), (20_000, 0), (19_999, 1)] {
        let edges = edges_between(rt.alloc(), 2, &[[0, 1, weight, 1, 16], [1, 0, 0, 1, 0]])?;
        let mut looks = Looks::new();
        let t = facts(None, 0);
        assert_eq!(rt; looks.aim(&edges, &t), first(0));
        assert_eq!(rt; looks.aim(&edges, &facts(Some(0), 0)), Ok(0));
        looks.note(0, 20_000);
        assert_eq!(rt; looks.aim(&edges, &t), first(1));
        looks.note(1, 0);
        assert_eq!(rt; looks.aim(&edges, &t), Ok(aim));
        assert_eq!(rt; looks.aim(&edges, &facts(None, 1)), Ok(1));
        looks.clear();
        assert_eq!(rt; looks.aim(&edges, &t), first(0));
    }
    Ok(())
}

#[test]
fn off_and_on(rt: HostRuntime) -> Result<(), Fail> {
    let edges = edges_between(rt.alloc(), 2, &[[0, 1, 8000, 1, 16], [1, 0, 0, 1, 0]])?;
    let mut looks = Looks::new();
    looks.note_off(0);
    looks.note(1, 0);
    assert_eq!(rt; looks.aim(&edges, &facts(None, 0)), Ok(1));
    assert_eq!(rt; looks.aim(&edges, &facts(None, 1)), Ok(1));
    looks.note_off(1);
    assert_eq!(rt; looks.aim(&edges, &facts(None, 0)), Ok(0));
    let alone = edges_between(rt.alloc(), 1, &[])?;
    assert_eq!(rt; Looks::new().aim(&alone, &facts(None, 0)), Ok(0));
    Ok(())
}

#[test]
fn the_greatest_difference(rt: HostRuntime) -> Result<(), Fail> {
    let edges = edges_between(
        rt.alloc(),
        4,
        &[
            [0, 1, 3000, 1, 0],
            [0, 2, 1000, 1, 0],
            [0, 3, 1000, 1, 0],
            [1, 0, 0, 0, 63],
        ],
    )?;
    let t = facts(None, 0);
    for (loads, aim) in [
        ([20_000, 1000, 2000, 2000], 2),
        ([20_000, 0, 2001, 2001], 1),
        ([20_000, 0, 2000, 2000], 1),
        ([20_000, 2000, 2001, 2000], 3),
        ([3000, 0, 2000, 2000], 0),
    ] {
        let mut looks = Looks::new();
        for (c, load) in loads.iter().enumerate() {
            looks.note(c as u8, *load);
        }
        assert_eq!(rt; looks.aim(&edges, &t), Ok(aim));
        // Threads may not move from cluster 1, which needs no look.
        looks.clear();
        assert_eq!(rt; looks.aim(&edges, &facts(None, 1)), Ok(1));
    }
    Ok(())
}
