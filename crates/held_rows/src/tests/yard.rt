//! Two threads sleep in the yard, and are woken by their due moments and their names.
ghost use Rattle.std.specs.Prelude.{◌≡◌, ◌≤◌, IfOk, OnOk, length};
ghost use Rattle.sched_base.specs.declared.Spot.TheVariants as spots;
ghost use Rattle.cells.specs.Courses.{OnCourse};
ghost use Rattle.cells.specs.Desks.{AreFresh, desk_count};
ghost use Rattle.cells.specs.Lines.{fewer_at, left_at};
ghost use Rattle.cells.specs.Making.{AtMost, IsNew};
ghost use Rattle.held_rows.specs.Rows.{IsPair, row_programs};

use super::moving::{eight_turns, ends, enters, made};
use super::*;

// Threads 3 and 7 are made.
fn two_made<N: RunName>(
    still: &mut Still<PlainCluster, N>,
    lines: &mut Lines<N>,
) -> Result<(Rider<N>, Rider<N>), AllocError>
    requires pair { IsPair N.setup }
    requires programs { N.programs ≡ row_programs }
    requires unused { length still.old.yard.yard.made ≡ 0 }
    requires few { AtMost 0 still.old }
    requires line { 2 ≤ left_at spots.Yard lines.old }
    ensures three { IfOk result (λ r. OnCourse N.setup N.programs r.0) }
    ensures seven { IfOk result (λ r. OnCourse N.setup N.programs r.1) }
    ensures line { OnOk result (lines.new ≡ fewer_at spots.Yard (fewer_at spots.Yard lines.old)) }
{
    still.has_rights();
    let three = made(still, &program(3), lines)?;
    still.has_rights();
    match made(still, &program(7), lines) {
        Ok(seven) => Ok((three, seven)),
        Err(failed) => {
            ends(still, 0, Some(three), lines);
            Err(failed)
        }
    }
}

// Both sleep for 7000: none is due at 6999, the one of the lesser name at 7000, and then the other is woken at its moment. Both are
// queued then, so that two live and none ended.
fn napped<N: RunName>(still: &mut Still<PlainCluster, N>) -> Result<(), AllocError>
    requires pair { IsPair N.setup }
    requires programs { N.programs ≡ row_programs }
    requires new { IsNew N.setup 0 still.old }
    requires few { AtMost 0 still.old }
{
    let mut lines = eight_turns(still)?;
    let (three, seven) = two_made(still, &mut lines)?;
    still.sleep(0, three, 7000, 0, &mut lines);
    still.sleep(0, seven, 7000, 0, &mut lines);
    let early = still.wake_due(0, 6999, &mut lines).value;
    ends(still, 0, early, &mut lines);
    let first = still.wake_due(0, 7000, &mut lines).value;
    let second = still.wake_first(1, 100, &mut lines).value;
    enters(still, 0, 0, first, &mut lines);
    enters(still, 0, 0, second, &mut lines);
    Ok(())
}

fn tried<N: RunName>(
    alloc: Global,
    setup: Setup,
    desks: DeskSet,
    books: Vec<Book>,
) -> Result<(u32, Closed), AllocError>
    requires setup { setup ≡ N.setup }
    requires pair { IsPair N.setup }
    requires programs { N.programs ≡ row_programs }
    requires desks { desks ≡ N.desks }
    requires fresh { AreFresh desks books.items }
    requires len { length books.items ≡ desk_count }
{
    let mut still = held::<N>(alloc, setup, desks, books)?;
    let napped = napped(&mut still);
    let blocked = still.blocked();
    let closed = still.close();
    napped?;
    Ok((blocked, closed))
}

#[test]
fn the_first_that_is_due_is_woken(rt: HostRuntime) -> Result<(), Fail> {
    let alloc = rt.alloc();
    let setup = pair(alloc)?;
    let (desks, books) = DeskSet::new(alloc)?;
    let (blocked, closed) = tried::<Brand>(alloc, setup, desks, books)?;
    assert_eq!(rt; blocked, 0);
    assert_eq!(rt;
        (closed.made, closed.queued, closed.blocked, closed.ended),
        (2, 2, 0, 0)
    );
    let answers = [
        Answer::Yes,
        Answer::Yes,
        Answer::Yes,
        Answer::Yes,
        Answer::Left(2),
        Answer::Yes,
        Answer::Yes,
    ];
    assert!(rt; tells(&closed, 0, &[Answer::Pri(31), Answer::Pri(31)]));
    assert!(rt; tells(&closed, 2, &answers));
    assert!(rt; woken(&closed));
    Ok(())
}

// Whether thread 3 was woken at 7000, and then thread 7 at 7000.
fn woken(closed: &Closed) -> bool {
    match closed.journals.get(2) {
        Some(journal) if journal.len() == 7 => {
            let (first, second) = (journal.line(5).entry, journal.line(6).entry);
            first.step.moment == 7000
                && first.step.act == (Act::Wake { name: 3 })
                && second.step.moment == 7000
                && second.step.act == (Act::Wake { name: 7 })
        }
        _ => false,
    }
}
