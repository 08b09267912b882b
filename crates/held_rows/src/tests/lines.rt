//! A line right is taken from some and put to others that had none, and then more are joined to them.
ghost use Rattle.std.specs.Prelude.{◌≡◌, IfOk, length};
ghost use Rattle.cells.specs.Desks.{AreFresh, desk_count};
ghost use Rattle.cells.specs.Making.{at_each};
ghost use Rattle.held_rows.specs.Rows.{IsPair, row_programs};

use super::moving::eight_turns;
use super::*;
use sched_base::Spot;

// The line rights of no turns.
fn no_turns<N: RunName>(still: &mut Still<PlainCluster, N>) -> Result<Lines<N>, AllocError>
    requires { IsPair N.setup }
    ensures { IfOk result (λ l. l ≡ at_each 2 0) }
{
    still.shares(0)
}

// A right that was put pays for a look at cluster 1, and one that was joined for the next. How many rights were put.
fn looked_twice<N: RunName>(still: &mut Still<PlainCluster, N>) -> Result<u64, AllocError>
    requires { IsPair N.setup }
{
    let mut many = eight_turns(still)?;
    let mut few = no_turns(still)?;
    let one = many.take(still.desks(), Spot::Cluster(1));
    let put = one.amount();
    few.put(still.desks(), Spot::Cluster(1), one);
    still.look(2, 1, Bucket::Fg, 0, &mut few);
    few.join(still.desks(), many);
    still.look(2, 1, Bucket::Fg, 0, &mut few);
    Ok(put)
}

fn tried<N: RunName>(
    alloc: Global,
    setup: Setup,
    desks: DeskSet,
    books: Vec<Book>,
) -> Result<(u64, Closed), AllocError>
    requires setup { setup ≡ N.setup }
    requires pair { IsPair N.setup }
    requires programs { N.programs ≡ row_programs }
    requires desks { desks ≡ N.desks }
    requires fresh { AreFresh desks books.items }
    requires len { length books.items ≡ desk_count }
{
    let mut still = held::<N>(alloc, setup, desks, books)?;
    let put = looked_twice(&mut still);
    let closed = still.close();
    Ok((put?, closed))
}

#[test]
fn line_rights_are_put_and_joined(rt: HostRuntime) -> Result<(), Fail> {
    let alloc = rt.alloc();
    let setup = pair(alloc)?;
    let (desks, books) = DeskSet::new(alloc)?;
    let (put, closed) = tried::<Brand>(alloc, setup, desks, books)?;
    assert_eq!(rt; put, 1);
    assert!(rt; tells(&closed, 1, &[Answer::Load(0), Answer::Load(0)]));
    Ok(())
}
