//! Steps of held values, without locks and behind them.
ghost use Rattle.std.specs.Prelude.{◌≡◌, IfOk, length};
ghost use Rattle.cells.specs.Desks.{AreFresh, desk_count};
ghost use Rattle.cells.specs.Making.{AtMost, IsNew};
ghost use Rattle.held_rows.specs.Rows.{IsPair, row_programs};

mod floor;
mod lines;
mod locking;
mod moving;
mod powers;
mod yard;

use super::*;
use cells::{Closed, DeskSet, Done, Floor, Lines, Rider, RunName, Still};
use flat_policy::journal::Journal;
use flat_policy::setup::Setup;
use flat_policy::texts::ProgramLine;
use plain_cluster::PlainCluster;
use rights::Book;
use sched_base::{Act, Answer, Bucket};
use std::alloc::{AllocError, Global};
use std::marker::Brand;
use std::sync::Wait;
use std::test::*;

// Two clusters of two processors and of one, with an edge each way.
fn pair(alloc: Global) -> Result<Setup, Fail>
    ensures { IfOk result IsPair }
{
    let edges = [[0, 1, 8000, 1, 16], [1, 0, 0, 1, 0]];
    let setup = Setup::build(
        alloc,
        &[[2, 1000], [1, 400]],
        &edges,
        &[[0; 6], [1; 6]],
        8,
        1,
    )?;
    Ok(setup)
}

// Whether a journal has these answers, line by line.
fn tells(closed: &Closed, place: usize, answers: &[Answer]) -> bool {
    match closed.journals.get(place) {
        Some(journal) => has_answers(journal, answers),
        None => false,
    }
}

fn has_answers(journal: &Journal, answers: &[Answer]) -> bool {
    if journal.len() != answers.len() as u64 {
        return false;
    }
    for i in 0..answers.len() {
        if journal.line(i as u64).entry.answer != answers[i] {
            return false;
        }
    }
    true
}

// The held values of a run of the programs 3 and 7.
fn held<N: RunName>(
    alloc: Global,
    setup: Setup,
    desks: DeskSet,
    books: Vec<Book>,
) -> Result<Still<PlainCluster, N>, AllocError>
    requires setup { setup ≡ N.setup }
    requires pair { IsPair N.setup }
    requires programs { N.programs ≡ row_programs }
    requires desks { desks ≡ N.desks }
    requires fresh { AreFresh desks books.items }
    requires len { length books.items ≡ desk_count }
    ensures new { IfOk result (λ s. IsNew N.setup 0 s) }
    ensures few { IfOk result (λ s. AtMost 0 s) }
{
    setup.keeps_ranges();
    let programs = programs(alloc)?;
    Still::new(alloc, desks, books, setup, programs)
}
