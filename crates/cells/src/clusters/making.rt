//! The held clusters of a run are made.
ghost use Rattle.std.specs.Prelude.{◌≡◌, ◌*◌, ◌+◌, ◌<◌, IfOk, length};
ghost use Rattle.flat_policy.specs.Policy.Setup.{cluster_count};
ghost use Rattle.sched_base.specs.Limits.{most_threads};
ghost use Rattle.cells.specs.Desks.{AreFresh, desk_count, slot_desk};
ghost use Rattle.cells.specs.Fresh.{AreNewPlaces, IsNewPlace, IsShare, readied, ready_one};
ghost use Rattle.cells.specs.Making.{IsNewHeld, IsNewYard, past};
ghost use Rattle.cells.specs.Packs.{yard_amounts};

use super::Clusters;
use crate::desk_set::DeskSet;
use crate::held_cluster::{HeldCluster, new_queue};
use crate::held_yard::HeldYard;
use crate::pack::Pack;
use crate::run_name::RunName;
use flat_policy::cluster::Cluster;
use flat_policy::journal::Journal;
use flat_policy::setup::Setup;
use rights::{Book, Share};
use sched_base::limits::MOST_THREADS;
use std::alloc::{AllocError, Global};
use std::marker::{Model, PhantomData};
use std::mem;

/// The two books of cluster C, or of the yard where C is 8, before anything is minted.
#[derive(Drop)]
struct FreshTwo<N: RunName, const C: usize> {
    slots: Book,
    lines: Book,
    run: PhantomData<N>,
}

impl<N: RunName, const C: usize> Model for FreshTwo<N, C> {
    ghost use Rattle.std.specs.Prelude.{⊤};
    ghost use Rattle.cells.specs.Fresh.{AreTwo};

    ghost Value = { ⊤ };

    ghost view = { λ f. tt };

    ghost invariant = { λ f. AreTwo N.desks C f.slots f.lines };
}

impl<N: RunName, const C: usize> FreshTwo<N, C> {
    /// Takes the last two of the fresh books of the first desks.
    fn last_of(desks: &DeskSet, books: &mut Vec<Book>) -> FreshTwo<N, C>
        requires own { desks.now ≡ N.desks }
        requires fresh { AreFresh N.desks books.old.items }
        requires len { length books.old.items ≡ 2 * C + 2 }
        ensures fresh { AreFresh N.desks books.new.items }
        ensures len { length books.new.items ≡ 2 * C }
    {
        let lines = desks.last_book(books);
        let slots = desks.last_book(books);
        FreshTwo {
            slots,
            lines,
            run: PhantomData,
        }
    }

    /// A share of none of its slot rights.
    fn no_slots(&mut self, desks: &DeskSet) -> Share
        requires own { desks.now ≡ N.desks }
        requires there { C < 9 }
        ensures { IsShare N.desks (slot_desk C) 0 result }
    {
        self.slots.mint(desks.desk(2 * C), 0)
    }

    /// Lets its books go, and gives as many of its slot rights as threads may live.
    fn into_slots(self, desks: &DeskSet) -> Share
        requires own { desks.now ≡ N.desks }
        requires there { C < 9 }
        ensures { IsShare N.desks (slot_desk C) most_threads result }
    {
        let FreshTwo {
            slots,
            lines: _,
            run: _,
        } = self;
        let mut slots = slots;
        slots.mint(desks.desk(2 * C), MOST_THREADS as u64)
    }
}

impl<K: Cluster, N: RunName> Clusters<K, N> {
    /// The places, filled as far as there are clusters. As many slot rights of each place that is not filled as threads may
    /// live are added to the stock. An error is want of memory.
    pub(crate) fn new(
        alloc: Global,
        desks: &DeskSet,
        setup: &Setup,
        books: Vec<Book>,
        stock: &mut Pack<N>,
    ) -> Result<Clusters<K, N>, AllocError>
        requires own { desks.now ≡ N.desks }
        requires setup { setup.now ≡ N.setup }
        requires fresh { AreFresh N.desks books.items }
        requires len { length books.items ≡ 16 }
        requires empty { stock.old ≡ yard_amounts 0 0 }
        ensures places { IfOk result (AreNewPlaces N.setup) }
        ensures stock { IfOk result (λ _. stock.new ≡ past (cluster_count N.setup) most_threads) }
    {
        let mut books = books;
        let mut places = Clusters {
            at0: None,
            at1: None,
            at2: None,
            at3: None,
            at4: None,
            at5: None,
            at6: None,
            at7: None,
        };
        match places.fill(alloc, desks, setup, &mut books, stock) {
            Ok(()) => Ok(places),
            Err(failed) => {
                places.end();
                Err(failed)
            }
        }
    }

    /// Fills the places as far as there are clusters. An error is want of memory; then some places may be filled.
    fn fill(
        &mut self,
        alloc: Global,
        desks: &DeskSet,
        setup: &Setup,
        books: &mut Vec<Book>,
        stock: &mut Pack<N>,
    ) -> Result<(), AllocError>
        requires own { desks.now ≡ N.desks }
        requires setup { setup.now ≡ N.setup }
        requires fresh { AreFresh N.desks books.old.items }
        requires len { length books.old.items ≡ 16 }
        ensures places { IfOk result (λ _. AreNewPlaces N.setup self.new) }
        ensures stock { IfOk result (λ _. stock.new ≡ readied (cluster_count N.setup) stock.old) }
    {
        setup.keeps_ranges();
        fill_in(&mut self.at7, alloc, desks, setup, books, stock)?;
        fill_in(&mut self.at6, alloc, desks, setup, books, stock)?;
        fill_in(&mut self.at5, alloc, desks, setup, books, stock)?;
        fill_in(&mut self.at4, alloc, desks, setup, books, stock)?;
        fill_in(&mut self.at3, alloc, desks, setup, books, stock)?;
        fill_in(&mut self.at2, alloc, desks, setup, books, stock)?;
        fill_in(&mut self.at1, alloc, desks, setup, books, stock)?;
        fill_in(&mut self.at0, alloc, desks, setup, books, stock)?;
        Ok(())
    }

    /// Ends all held clusters.
    pub(crate) fn end(self) {
        let Clusters {
            at0,
            at1,
            at2,
            at3,
            at4,
            at5,
            at6,
            at7,
        } = self;
        end_in(at0);
        end_in(at1);
        end_in(at2);
        end_in(at3);
        end_in(at4);
        end_in(at5);
        end_in(at6);
        end_in(at7);
    }
}

// Fills a place where there is a cluster of its number. Elsewhere as many slot rights as threads may live are added to the
// stock. The last two of the fresh books are those of the place.
fn fill_in<K: Cluster, N: RunName, const C: usize>(
    place: &mut Option<HeldCluster<K, N, C>>,
    alloc: Global,
    desks: &DeskSet,
    setup: &Setup,
    books: &mut Vec<Book>,
    stock: &mut Pack<N>,
) -> Result<(), AllocError>
    requires there { C < 8 }
    requires own { desks.now ≡ N.desks }
    requires setup { setup.now ≡ N.setup }
    requires fresh { AreFresh N.desks books.old.items }
    requires len { length books.old.items ≡ 2 * C + 2 }
    ensures place { IfOk result (λ _. IsNewPlace N.setup C place.new) }
    ensures fresh { AreFresh N.desks books.new.items }
    ensures len { length books.new.items ≡ 2 * C }
    ensures stock { IfOk result (λ _. stock.new ≡ ready_one C (cluster_count N.setup) stock.old) }
{
    let mut two = FreshTwo::last_of(desks, books);
    if C >= setup.clusters() as usize {
        put_in(place, None);
        stock.add(desks, C, two.into_slots(desks));
        return Ok(());
    }
    stock.add(desks, C, two.no_slots(desks));
    let held = new_held(alloc, setup, two, stock.none(desks))?;
    put_in(place, Some(held));
    Ok(())
}

// Puts a held cluster or none in a place, and ends the one that was there.
fn put_in<K: Cluster, N: RunName, const C: usize>(
    place: &mut Option<HeldCluster<K, N, C>>,
    held: Option<HeldCluster<K, N, C>>,
)
    ensures { place.new ≡ held }
{
    end_in(mem::replace(place, held));
}

// A new held cluster.
fn new_held<K: Cluster, N: RunName, const C: usize>(
    alloc: Global,
    setup: &Setup,
    books: FreshTwo<N, C>,
    none: Pack<N>,
) -> Result<HeldCluster<K, N, C>, AllocError>
    requires there { C < 8 }
    requires cluster { C < cluster_count N.setup }
    requires setup { setup.now ≡ N.setup }
    requires none { none ≡ yard_amounts 0 0 }
    ensures { IfOk result (IsNewHeld N.setup C) }
{
    let FreshTwo {
        slots,
        lines,
        run: _,
    } = books;
    let queue = new_queue(alloc, setup, C as u8)?;
    Ok(HeldCluster::new(queue, Journal::new(alloc), slots, lines, none))
}

/// A new held yard, with the last two of the fresh books. An error is want of memory.
pub(crate) fn new_yard<N: RunName>(
    alloc: Global,
    desks: &DeskSet,
    books: &mut Vec<Book>,
    stock: &mut Pack<N>,
) -> Result<HeldYard<N>, AllocError>
    requires own { desks.now ≡ N.desks }
    requires fresh { AreFresh N.desks books.old.items }
    requires len { length books.old.items ≡ desk_count }
    ensures yard { IfOk result IsNewYard }
    ensures fresh { AreFresh N.desks books.new.items }
    ensures len { length books.new.items ≡ 16 }
    ensures same { stock.new ≡ stock.old }
{
    let two: FreshTwo<N, 8> = FreshTwo::last_of(desks, books);
    let FreshTwo {
        slots,
        lines,
        run: _,
    } = two;
    HeldYard::new(alloc, slots, lines, stock.none(desks))
}

// Ends the held cluster of a place, where there is one.
fn end_in<K: Cluster, N: RunName, const C: usize>(place: Option<HeldCluster<K, N, C>>) {
    if let Some(held) = place {
        held.close();
    }
}
