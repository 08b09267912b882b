//! One thread makes each step behind its lock.
ghost use Rattle.std.specs.Prelude.{◌≡◌, ◌<◌, ◌≤◌, IfOk, length};
ghost use Rattle.sched_base.specs.declared.Spot.TheVariants as spots;
ghost use Rattle.flat_policy.specs.Policy.Setup.{actor_count};
ghost use Rattle.cells.specs.Courses.{OnCourse};
ghost use Rattle.cells.specs.Desks.{AreFresh, desk_count};
ghost use Rattle.cells.specs.Lines.{fewer_at, left_at};
ghost use Rattle.cells.specs.Making.{AtMost, IsNew};
ghost use Rattle.held_rows.specs.Rows.{IsPair, row_programs};

use super::moving::{eight_turns, made};
use super::*;
use ports::NoGate;
use sched_base::Spot;

// A thread ends, where there is one. A line right of the yard goes in any case.
fn ends<N: RunName, R: Wait>(
    rt: &R,
    floor: &Floor<PlainCluster, N>,
    actor: u8,
    rider: Option<Rider<N>>,
    lines: &mut Lines<N>,
)
    requires line { 1 ≤ left_at spots.Yard lines.old }
    requires actor { actor < actor_count N.setup }
    ensures { lines.new ≡ fewer_at spots.Yard lines.old }
{
    match rider {
        Some(rider) => {
            floor.end(rt, &NoGate, actor, rider, 0, lines);
        }
        None => {
            let _ = lines.take(floor.desks(), Spot::Yard);
        }
    }
}

// A thread enters cluster 0; where it may not, it ends. A line right of the cluster and one of the yard go in any case.
fn enters<N: RunName, R: Wait>(
    rt: &R,
    floor: &Floor<PlainCluster, N>,
    rider: Rider<N>,
    lines: &mut Lines<N>,
)
    requires pair { IsPair N.setup }
    requires cluster { 1 ≤ left_at (spots.Cluster 0) lines.old }
    requires yard { 1 ≤ left_at spots.Yard lines.old }
    requires course { OnCourse N.setup N.programs rider }
    ensures { lines.new ≡ fewer_at spots.Yard (fewer_at (spots.Cluster 0) lines.old) }
{
    let facts = rider.facts();
    if facts.prefer < 8 && floor.edges().may_enter(&facts, 0) {
        floor.enter(rt, &NoGate, 0, 0, rider, 0, lines);
        ends(rt, floor, 0, None, lines);
    } else {
        let _ = lines.take(floor.desks(), Spot::Cluster(0));
        ends(rt, floor, 0, Some(rider), lines);
    }
}

// A thread sleeps, is woken before its time, and ends.
fn naps<N: RunName, R: Wait>(
    rt: &R,
    floor: &Floor<PlainCluster, N>,
    rider: Rider<N>,
    lines: &mut Lines<N>,
)
    requires pair { IsPair N.setup }
    requires line { 5 ≤ left_at spots.Yard lines.old }
    requires course { OnCourse N.setup N.programs rider }
{
    floor.sleep(rt, &NoGate, 0, rider, 1000, 0, lines);
    let early = floor.wake_due(rt, &NoGate, 0, 500, lines).value;
    ends(rt, floor, 0, early, lines);
    let woken = floor.wake_first(rt, &NoGate, 2, 100, lines).value;
    ends(rt, floor, 2, woken, lines);
}

// A thread enters cluster 0 and is selected there; actor 2 asks and takes nothing, and the cluster is turned off and on.
fn walked<N: RunName, R: Wait>(
    rt: &R,
    floor: &Floor<PlainCluster, N>,
    rider: Rider<N>,
    lines: &mut Lines<N>,
)
    requires pair { IsPair N.setup }
    requires cluster { 6 ≤ left_at (spots.Cluster 0) lines.old }
    requires yard { 7 ≤ left_at spots.Yard lines.old }
    requires course { OnCourse N.setup N.programs rider }
{
    enters(rt, floor, rider, lines);
    let picked = floor.select(rt, &NoGate, 0, 0, lines).value;
    floor.look(rt, &NoGate, 2, 0, Bucket::Fg, 0, lines);
    let none = floor.offer(rt, &NoGate, 2, 0, 0, lines).value;
    ends(rt, floor, 2, none, lines);
    floor.turn(rt, &NoGate, 0, false, 0, lines);
    floor.turn(rt, &NoGate, 1, true, 0, lines);
    if let Some(rider) = picked {
        naps(rt, floor, rider, lines);
    }
}

// Thread 3 is made, and gets line rights.
fn with_lines<N: RunName>(
    still: &mut Still<PlainCluster, N>,
) -> Result<(Rider<N>, Lines<N>), AllocError>
    requires pair { IsPair N.setup }
    requires programs { N.programs ≡ row_programs }
    requires new { IsNew N.setup 0 still.old }
    requires few { AtMost 0 still.old }
    ensures course { IfOk result (λ r. OnCourse N.setup N.programs r.0) }
    ensures cluster { IfOk result (λ r. 6 ≤ left_at (spots.Cluster 0) r.1) }
    ensures yard { IfOk result (λ r. 7 ≤ left_at spots.Yard r.1) }
{
    let mut lines = eight_turns(still)?;
    still.has_rights();
    let rider = made(still, &program(3), &mut lines)?;
    Ok((rider, lines))
}

fn tried<N: RunName, R: Wait>(
    rt: &R,
    alloc: Global,
    setup: Setup,
    desks: DeskSet,
    books: Vec<Book>,
) -> Result<Closed, AllocError>
    requires setup { setup ≡ N.setup }
    requires pair { IsPair N.setup }
    requires programs { N.programs ≡ row_programs }
    requires desks { desks ≡ N.desks }
    requires fresh { AreFresh desks books.items }
    requires len { length books.items ≡ desk_count }
{
    let mut still = held::<N>(alloc, setup, desks, books)?;
    match with_lines(&mut still) {
        Ok((rider, lines)) => {
            let mut lines = lines;
            let floor = still.start();
            walked(rt, &floor, rider, &mut lines);
            Ok(floor.still().close())
        }
        Err(failed) => {
            still.close();
            Err(failed)
        }
    }
}

#[test]
fn each_step_is_made_behind_its_lock(rt: HostRuntime) -> Result<(), Fail> {
    let alloc = rt.alloc();
    let setup = pair(alloc)?;
    let (desks, books) = DeskSet::new(alloc)?;
    let closed = tried::<Brand, _>(&rt, alloc, setup, desks, books)?;
    assert_eq!(rt;
        (closed.made, closed.queued, closed.blocked, closed.ended),
        (1, 0, 0, 1)
    );
    let first = [
        Answer::Pri(31),
        Answer::Got(3),
        Answer::Load(0),
        Answer::Empty,
        Answer::Yes,
        Answer::Yes,
    ];
    assert!(rt; tells(&closed, 0, &first));
    assert!(rt; tells(&closed, 1, &[]));
    let yard = [
        Answer::Yes,
        Answer::Yes,
        Answer::Left(1),
        Answer::Yes,
        Answer::Yes,
    ];
    assert!(rt; tells(&closed, 2, &yard));
    Ok(())
}
