//! A thread enters a cluster that is turned off, is taken by another cluster, enters there, and ends.
ghost use Rattle.std.specs.Prelude.{◌≡◌, ◌<◌, ◌≤◌, ◌+◌, ◌==◌, ◌++◌, ◌∷◌, [], ℕ, Contains, IfOk, IfSome, OnErr, OnOk, false, length};
ghost use Rattle.std.specs.List.{list_any};
ghost use Rattle.sched_base.specs.declared.Spot.TheVariants as spots;
ghost use Rattle.flat_policy.specs.Policy.Setup.{actor_count, cluster_count};
ghost use Rattle.trace_text.specs.Runs.{program_of};
ghost use Rattle.cells.specs.Courses.{OnCourse};
ghost use Rattle.cells.specs.Desks.{AreFresh, desk_count};
ghost use Rattle.cells.specs.Lines.{fewer_at, left_at};
ghost use Rattle.cells.specs.Making.{AtMost, HasRights, IsNew, at_each};
ghost use Rattle.held_rows.specs.Rows.{IsPair, row_programs};

use super::*;
use sched_base::Spot;

// The line rights of eight turns.
pub(super) fn eight_turns<N: RunName>(
    still: &mut Still<PlainCluster, N>,
) -> Result<Lines<N>, AllocError>
    requires pair { IsPair N.setup }
    ensures lines { IfOk result (λ l. l ≡ at_each 2 32) }
    ensures yard { OnOk result (still.new.yard.yard ≡ still.old.yard.yard) }
    ensures few { OnOk result ((k : ℕ) → AtMost k still.old → AtMost k still.new) }
{
    still.shares(8)
}

// A thread of a program is made, where at most one was made before.
pub(super) fn made<N: RunName>(
    still: &mut Still<PlainCluster, N>,
    p: &ProgramLine,
    lines: &mut Lines<N>,
) -> Result<Rider<N>, AllocError>
    requires pair { IsPair N.setup }
    requires programs { N.programs ≡ row_programs }
    requires program { Contains row_programs (program_of p.now) }
    requires unused { list_any (λ n. n == p.now.name) still.old.yard.yard.made ≡ false }
    requires live { length still.old.yard.yard.made ≤ 1 }
    requires rights { HasRights still.old }
    requires line { 1 ≤ left_at spots.Yard lines.old }
    ensures course { IfOk result (OnCourse N.setup N.programs) }
    ensures made { OnOk result (still.new.yard.yard.made ≡ still.old.yard.yard.made ++ p.now.name ∷ []) }
    ensures few { OnOk result ((k : ℕ) → AtMost k still.old → AtMost (k + 1) still.new) }
    ensures line { OnOk result (lines.new ≡ fewer_at spots.Yard lines.old) }
    ensures kept { OnErr result (lines.new ≡ lines.old) }
{
    let done = still.make(0, p, 0, lines)?;
    Ok(done.value)
}

// A thread ends, where there is one. A line right of the yard goes in any case.
pub(super) fn ends<N: RunName>(
    still: &mut Still<PlainCluster, N>,
    actor: u8,
    rider: Option<Rider<N>>,
    lines: &mut Lines<N>,
)
    requires line { 1 ≤ left_at spots.Yard lines.old }
    requires actor { actor < actor_count N.setup }
    ensures { lines.new ≡ fewer_at spots.Yard lines.old }
{
    match rider {
        Some(rider) => {
            still.end(actor, rider, 0, lines);
        }
        None => {
            let _ = lines.take(still.desks(), Spot::Yard);
        }
    }
}

// A thread enters a cluster, where there is one; where it may not, it ends. A line right of the cluster and one of the yard go in
// any case.
pub(super) fn enters<N: RunName>(
    still: &mut Still<PlainCluster, N>,
    actor: u8,
    c: u8,
    rider: Option<Rider<N>>,
    lines: &mut Lines<N>,
)
    requires there { (c < 8) × (c < cluster_count N.setup) }
    requires cluster { 1 ≤ left_at (spots.Cluster c) lines.old }
    requires yard { 1 ≤ left_at spots.Yard lines.old }
    requires actor { actor < actor_count N.setup }
    requires course { IfSome rider (OnCourse N.setup N.programs) }
    ensures { lines.new ≡ fewer_at spots.Yard (fewer_at (spots.Cluster c) lines.old) }
{
    if let Some(rider) = rider {
        let facts = rider.facts();
        if facts.prefer < 8 && still.edges().may_enter(&facts, c) {
            still.enter(actor, c, rider, 0, lines);
            ends(still, actor, None, lines);
        } else {
            let _ = lines.take(still.desks(), Spot::Cluster(c));
            ends(still, actor, Some(rider), lines);
        }
    } else {
        let _ = lines.take(still.desks(), Spot::Cluster(c));
        ends(still, actor, None, lines);
    }
}

// Thread 3 enters cluster 0, which is turned off. Then nothing is selected there, and actor 2 takes the thread to its home. How
// many are queued there, before the thread is selected and ends.
fn taken_while_off<N: RunName>(still: &mut Still<PlainCluster, N>) -> Result<u32, AllocError>
    requires pair { IsPair N.setup }
    requires programs { N.programs ≡ row_programs }
    requires new { IsNew N.setup 0 still.old }
    requires few { AtMost 0 still.old }
{
    let mut lines = eight_turns(still)?;
    still.has_rights();
    let rider = made(still, &program(3), &mut lines)?;
    enters(still, 0, 0, Some(rider), &mut lines);
    let early = still.offer(2, 0, 0, &mut lines).value;
    ends(still, 2, early, &mut lines);
    still.turn(0, false, 0, &mut lines);
    let none = still.select(0, 0, &mut lines).value;
    ends(still, 0, none, &mut lines);
    still.look(2, 0, Bucket::Fg, 0, &mut lines);
    let taken = still.offer(2, 0, 0, &mut lines).value;
    enters(still, 2, 1, taken, &mut lines);
    still.turn(0, true, 0, &mut lines);
    let queued = still.queued(1);
    let picked = still.select(2, 0, &mut lines).value;
    ends(still, 2, picked, &mut lines);
    Ok(queued)
}

fn tried<N: RunName>(
    alloc: Global,
    setup: Setup,
    desks: DeskSet,
    books: Vec<Book>,
) -> Result<(u32, bool, Closed), AllocError>
    requires setup { setup ≡ N.setup }
    requires pair { IsPair N.setup }
    requires programs { N.programs ≡ row_programs }
    requires desks { desks ≡ N.desks }
    requires fresh { AreFresh desks books.items }
    requires len { length books.items ≡ desk_count }
{
    let mut still = held::<N>(alloc, setup, desks, books)?;
    let queued = taken_while_off(&mut still);
    let on = still.is_on(0);
    let closed = still.close();
    Ok((queued?, on, closed))
}

#[test]
fn a_thread_is_taken_while_its_cluster_is_off(rt: HostRuntime) -> Result<(), Fail> {
    let alloc = rt.alloc();
    let setup = pair(alloc)?;
    let (desks, books) = DeskSet::new(alloc)?;
    let (queued, on, closed) = tried::<Brand>(alloc, setup, desks, books)?;
    assert_eq!(rt; (queued, on), (1, true));
    assert_eq!(rt;
        (closed.made, closed.queued, closed.blocked, closed.ended),
        (1, 0, 0, 1)
    );
    let first = [
        Answer::Pri(31),
        Answer::Empty,
        Answer::Yes,
        Answer::Off,
        Answer::Off,
        Answer::Got(3),
        Answer::Yes,
    ];
    assert!(rt; tells(&closed, 0, &first));
    assert!(rt; tells(&closed, 1, &[Answer::Pri(31), Answer::Got(3)]));
    assert!(rt; tells(&closed, 2, &[Answer::Yes, Answer::Yes]));
    Ok(())
}
