//! The held values of a run are made.
ghost use Rattle.std.specs.Prelude.{◌≡◌, ◌<◌, ◌≤◌, IfOk, length, map, vec_capacity, vec_len};
ghost use Rattle.flat_policy.specs.Policy.Setup.{cluster_count};
ghost use Rattle.sched_base.specs.Limits.{most_threads};
ghost use Rattle.trace_text.specs.Runs.{power_of, program_of};
ghost use Rattle.cells.specs.Desks.{AreFresh, desk_count};
ghost use Rattle.cells.specs.Frames.{AreRunnable};
ghost use Rattle.cells.specs.Fresh.{AreNewPlaces, IsShare};
ghost use Rattle.cells.specs.Making.{AtMost, IsNew, IsNewYard, past};
ghost use Rattle.cells.specs.Packs.{yard_amounts};

use super::Still;
use crate::clusters::{Clusters, new_yard};
use crate::desk_set::DeskSet;
use crate::frame::Frame;
use crate::held_yard::HeldYard;
use crate::lines::Lines;
use crate::pack::Pack;
use crate::run_name::RunName;
use flat_policy::cluster::Cluster;
use flat_policy::journal::Journal;
use flat_policy::setup::Setup;
use flat_policy::texts::{Power, ProgramLine};
use rights::{Book, Share};
use std::alloc::{AllocError, Global};

// What is made for a run besides its desks and its frame.
struct Inner<K: Cluster, N: RunName> {
    clusters: Clusters<K, N>,
    yard: HeldYard<N>,
    stock: Pack<N>,
    no_lines: Lines<N>,
    journals: Vec<Journal>,
}

impl<K: Cluster, N: RunName> Still<K, N> {
    /// The held values of a run, all empty, with nothing minted but 4096 slot rights of each place that has no cluster. No
    /// powers are told. An error is want of memory.
    pub fn new(
        alloc: Global,
        desks: DeskSet,
        books: Vec<Book>,
        setup: Setup,
        programs: Vec<ProgramLine>,
    ) -> Result<Still<K, N>, AllocError>
        requires desks { desks ≡ N.desks }
        requires fresh { AreFresh desks books.items }
        requires len { length books.items ≡ desk_count }
        requires setup { setup ≡ N.setup }
        requires programs { map program_of programs.items ≡ N.programs }
        requires runnable { AreRunnable N.setup N.programs }
        ensures new { IfOk result (λ s. IsNew N.setup 0 s) }
        ensures few { IfOk result (AtMost 0) }
    {
        let frame = Frame::new(alloc, setup, programs, Vec::new(alloc), 0)?;
        made(alloc, desks, books, frame)
    }

    /// The same with powers, which are told for a number of turns.
    pub fn with_power(
        alloc: Global,
        desks: DeskSet,
        books: Vec<Book>,
        setup: Setup,
        programs: Vec<ProgramLine>,
        powers: Vec<Power>,
        turns: u32,
    ) -> Result<Still<K, N>, AllocError>
        requires desks { desks ≡ N.desks }
        requires fresh { AreFresh desks books.items }
        requires len { length books.items ≡ desk_count }
        requires setup { setup ≡ N.setup }
        requires programs { map program_of programs.items ≡ N.programs }
        requires runnable { AreRunnable N.setup N.programs }
        requires powers { map power_of powers.items ≡ N.powers }
        ensures new { IfOk result (λ s. IsNew N.setup turns s) }
        ensures few { IfOk result (AtMost 0) }
    {
        let frame = Frame::new(alloc, setup, programs, powers, turns)?;
        made(alloc, desks, books, frame)
    }
}

// The held values of a run around its frame.
fn made<K: Cluster, N: RunName>(
    alloc: Global,
    desks: DeskSet,
    books: Vec<Book>,
    frame: Frame<N>,
) -> Result<Still<K, N>, AllocError>
    requires desks { desks ≡ N.desks }
    requires fresh { AreFresh desks books.items }
    requires len { length books.items ≡ desk_count }
    ensures new { IfOk result (λ s. IsNew N.setup frame s) }
    ensures few { IfOk result (AtMost 0) }
{
    match inner_of(alloc, &desks, frame.setup(), books) {
        Ok(inner) => {
            let Inner {
                clusters,
                yard,
                stock,
                no_lines,
                journals,
            } = inner;
            Ok(Still {
                desks,
                clusters,
                yard,
                frame,
                stock,
                no_lines,
                journals,
            })
        }
        Err(failed) => Err(failed),
    }
}

// The held values with what else the desks and the frame don't give.
fn inner_of<K: Cluster, N: RunName>(
    alloc: Global,
    desks: &DeskSet,
    setup: &Setup,
    books: Vec<Book>,
) -> Result<Inner<K, N>, AllocError>
    requires desks { desks.now ≡ N.desks }
    requires setup { setup.now ≡ N.setup }
    requires fresh { AreFresh N.desks books.items }
    requires len { length books.items ≡ desk_count }
    ensures places { IfOk result (λ h. AreNewPlaces N.setup h.clusters) }
    ensures yard { IfOk result (λ h. IsNewYard h.yard) }
    ensures stock { IfOk result (λ h. h.stock ≡ past (cluster_count N.setup) most_threads) }
    ensures lines { IfOk result (λ h. h.no_lines ≡ yard_amounts 0 0) }
    ensures none { IfOk result (λ h. vec_len h.journals ≡ 0) }
    ensures room { IfOk result (λ h. 9 ≤ vec_capacity h.journals) }
{
    let mut books = books;
    let journals = Vec::with_capacity(alloc, 9)?;
    let mut stock = no_slots(desks, &mut books);
    let no_lines = no_lines(desks, &mut books);
    match held(alloc, desks, setup, books, &mut stock) {
        Ok((clusters, yard)) => Ok(Inner {
            clusters,
            yard,
            stock,
            no_lines,
            journals,
        }),
        Err(failed) => {
            let_go(stock, no_lines);
            Err(failed)
        }
    }
}

// Lets rights go.
fn let_go<N: RunName>(stock: Pack<N>, no_lines: Lines<N>) {
    let _ = stock;
    let _ = no_lines;
}

// The held values. The slot rights of each place that is not filled are added to the stock.
fn held<K: Cluster, N: RunName>(
    alloc: Global,
    desks: &DeskSet,
    setup: &Setup,
    books: Vec<Book>,
    stock: &mut Pack<N>,
) -> Result<(Clusters<K, N>, HeldYard<N>), AllocError>
    requires desks { desks.now ≡ N.desks }
    requires setup { setup.now ≡ N.setup }
    requires fresh { AreFresh N.desks books.items }
    requires len { length books.items ≡ desk_count }
    requires empty { stock.old ≡ yard_amounts 0 0 }
    ensures places { IfOk result (λ made. AreNewPlaces N.setup made.0) }
    ensures yard { IfOk result (λ made. IsNewYard made.1) }
    ensures stock { IfOk result (λ _. stock.new ≡ past (cluster_count N.setup) most_threads) }
{
    let mut books = books;
    let yard = new_yard(alloc, desks, &mut books, stock)?;
    match Clusters::new(alloc, desks, setup, books, stock) {
        Ok(clusters) => Ok((clusters, yard)),
        Err(failed) => {
            yard.close();
            Err(failed)
        }
    }
}

// A pack of none of the slot rights of fresh books, which stay as they are.
fn no_slots<N: RunName>(desks: &DeskSet, books: &mut Vec<Book>) -> Pack<N>
    requires desks { desks.now ≡ N.desks }
    requires fresh { AreFresh N.desks books.old.items }
    requires len { length books.old.items ≡ desk_count }
    ensures same { books.new.items ≡ books.old.items }
    ensures none { result ≡ yard_amounts 0 0 }
{
    let at0 = none_of(desks, books, 0);
    let at1 = none_of(desks, books, 2);
    let at2 = none_of(desks, books, 4);
    let at3 = none_of(desks, books, 6);
    let at4 = none_of(desks, books, 8);
    let at5 = none_of(desks, books, 10);
    let at6 = none_of(desks, books, 12);
    let at7 = none_of(desks, books, 14);
    let yard = none_of(desks, books, 16);
    Pack::of(at0, at1, at2, at3, at4, at5, at6, at7, yard)
}

// None of the line rights of fresh books, which stay as they are.
fn no_lines<N: RunName>(desks: &DeskSet, books: &mut Vec<Book>) -> Lines<N>
    requires desks { desks.now ≡ N.desks }
    requires fresh { AreFresh N.desks books.old.items }
    requires len { length books.old.items ≡ desk_count }
    ensures same { books.new.items ≡ books.old.items }
    ensures none { result ≡ yard_amounts 0 0 }
{
    let at0 = none_of(desks, books, 1);
    let at1 = none_of(desks, books, 3);
    let at2 = none_of(desks, books, 5);
    let at3 = none_of(desks, books, 7);
    let at4 = none_of(desks, books, 9);
    let at5 = none_of(desks, books, 11);
    let at6 = none_of(desks, books, 13);
    let at7 = none_of(desks, books, 15);
    let yard = none_of(desks, books, 17);
    Lines::of(at0, at1, at2, at3, at4, at5, at6, at7, yard)
}

// A share of none of the rights of a fresh book, which stays as it is.
fn none_of(desks: &DeskSet, books: &mut Vec<Book>, k: usize) -> Share
    requires fresh { AreFresh desks.now books.old.items }
    requires len { length books.old.items ≡ desk_count }
    requires there { k < desk_count }
    ensures same { books.new.items ≡ books.old.items }
    ensures none { IsShare desks.now k 0 result }
{
    let book = &mut books[k];
    book.mint(desks.desk(k), 0)
}
