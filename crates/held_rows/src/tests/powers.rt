//! Powers and programs are looked up, without locks and behind them.
ghost use Rattle.std.specs.Prelude.{◌≡◌, length};
ghost use Rattle.cells.specs.Desks.{AreFresh, desk_count};
ghost use Rattle.held_rows.specs.Rows.{IsPair, row_powers, row_programs};

use super::*;

// What is told of cluster 0 in turns 0, 1 and 2 where powers are told for two turns, of cluster 1 in turn 0, and whether there
// are programs 3 and 4.
fn tried<N: RunName>(
    alloc: Global,
    setup: Setup,
    desks: DeskSet,
    books: Vec<Book>,
) -> Result<([Option<bool>; 4], [bool; 2]), AllocError>
    requires setup { setup ≡ N.setup }
    requires pair { IsPair N.setup }
    requires programs { N.programs ≡ row_programs }
    requires powers { N.powers ≡ row_powers }
    requires desks { desks ≡ N.desks }
    requires fresh { AreFresh desks books.items }
    requires len { length books.items ≡ desk_count }
{
    setup.keeps_ranges();
    let programs = programs(alloc)?;
    let powers = powers(alloc)?;
    let still: Still<PlainCluster, N> = Still::with_power(
        alloc, desks, books, setup, programs, powers, 2,
    )?;
    let (off, on) = (still.power(0, 0), still.power(0, 1));
    let floor = still.start();
    let told = [off, on, floor.power(0, 2), floor.power(1, 0)];
    let named = [floor.program(3).is_some(), floor.program(4).is_some()];
    floor.still().close();
    Ok((told, named))
}

#[test]
fn powers_and_programs_are_looked_up(rt: HostRuntime) -> Result<(), Fail> {
    let alloc = rt.alloc();
    let setup = pair(alloc)?;
    let (desks, books) = DeskSet::new(alloc)?;
    let (told, named) = tried::<Brand>(alloc, setup, desks, books)?;
    assert_eq!(rt; told, [Some(false), Some(true), None, None]);
    assert_eq!(rt; named, [true, false]);
    Ok(())
}
