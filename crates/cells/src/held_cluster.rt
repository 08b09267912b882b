//! The value behind the lock of a cluster.
ghost use Rattle.std.specs.Prelude.{◌≡◌, ◌<◌, ◌≤◌, ◌+◌, ◌==◌, IfOk, OnErr, OnOk, length};
ghost use Rattle.flat_policy.specs.Policy.Clusters.{new_cluster};
ghost use Rattle.flat_policy.specs.Policy.Setup.{cluster_count};
ghost use Rattle.flat_policy.specs.Runs.Journals.{empty_journal, pushed};
ghost use Rattle.cells.specs.Desks.{StandsAt, fresh_book, line_desk, slot_desk, yard_slot_desk};
ghost use Rattle.cells.specs.Held.{AreSmall, Keeps};
ghost use Rattle.cells.specs.Packs.{amounts_but};

mod asking;
mod moving;

use crate::desk_set::DeskSet;
use crate::pack::Pack;
use crate::run_name::RunName;
use flat_policy::cluster::Cluster;
use flat_policy::journal::{Journal, Line};
use flat_policy::setup::Setup;
use rights::{Book, Share};
use sched_base::Entry;
use sched_base::limits::MOST_THREADS;
use std::alloc::{AllocError, Global};
use std::marker::Model;

/// The first number of lines that cannot be reserved at once.
const LINES: u64 = 1 << 40;

/// A cluster's queue with its journal, its two books, and the rights of the threads that are queued there. Contracts
/// see all of them, and its type keeps what `Keeps` says of them for the run N and the cluster C.
///
/// The queue has memory of its own, so that a held cluster has one size whatever K is: a lock, which calls its methods
/// from another type, needs that.
pub struct HeldCluster<K: Cluster, N: RunName, const C: usize> {
    queue: Box<K>,
    journal: Journal,
    slots: Book,
    lines: Book,
    others: Pack<N>,
}

impl<K: Cluster, N: RunName, const C: usize> Model for HeldCluster<K, N, C> {
    ghost use Rattle.cells.specs.Held.{HeldParts, Keeps};

    ghost Value = { HeldParts };

    ghost view = { λ h. record { cluster = K.Cluster.view h.queue.value; journal = h.journal; slots = h.slots; lines = h.lines; others = h.others } };

    ghost invariant = { λ h. Keeps N.setup N.programs N.desks C
        (record { cluster = K.Cluster.view h.queue.value; journal = h.journal; slots = h.slots; lines = h.lines; others = h.others }) };
}

impl<K: Cluster, N: RunName, const C: usize> HeldCluster<K, N, C> {
    /// An empty cluster without room, of which nothing is minted.
    pub(crate) fn new(
        queue: Box<K>,
        journal: Journal,
        slots: Book,
        lines: Book,
        others: Pack<N>,
    ) -> HeldCluster<K, N, C>
        requires queue { K.Cluster.view queue.value ≡ new_cluster N.setup C }
        requires journal { journal ≡ empty_journal }
        requires slots { StandsAt N.desks (slot_desk C) slots.desk × (slots ≡ fresh_book slots.desk) }
        requires lines { StandsAt N.desks (line_desk C) lines.desk × (lines ≡ fresh_book lines.desk) }
        requires others { others ≡ amounts_but C 0 0 }
        ensures { result ≡ record { cluster = new_cluster N.setup C; journal = empty_journal; slots = slots; lines = lines; others = others } }
    {
        HeldCluster {
            queue,
            journal,
            slots,
            lines,
            others,
        }
    }

    /// Does nothing. It tells a proof what every held cluster keeps.
    pub fn keeps(&self)
        ensures { Keeps N.setup N.programs N.desks C self.now }
    {
        let _ = &self.journal;
    }

    /// How many threads are queued.
    pub fn len(&self) -> u32
        ensures { result ≡ length self.now.cluster.flat.entries }
    {
        self.queue.len()
    }

    /// Whether no thread is queued.
    pub fn is_empty(&self) -> bool
        ensures { result ≡ (length self.now.cluster.flat.entries == 0) }
    {
        self.queue.len() == 0
    }

    /// Whether the cluster is on.
    pub fn is_on(&self) -> bool
        ensures { result ≡ self.now.cluster.flat.on }
    {
        self.queue.is_on()
    }

    /// Makes room for one thread more at least. An error changes nothing.
    pub fn reserve_slot(&mut self) -> Result<(), AllocError>
        ensures same { self.new ≡ record self.old { cluster = record self.old.cluster { spare = self.new.cluster.spare } } }
        ensures room { OnOk result (self.old.cluster.spare + 1 ≤ self.new.cluster.spare) }
        ensures err { OnErr result (self.new ≡ self.old) }
    {
        self.queue.reserve()
    }

    /// Mints one slot right.
    pub fn mint_slot(&mut self, desks: &DeskSet) -> Share
        requires desks { desks.now ≡ N.desks }
        requires room { self.old.slots.minted < self.old.slots.parked + self.old.cluster.spare }
        requires few { self.old.slots.minted < MOST_THREADS }
        ensures held { self.new ≡ record self.old { slots = record self.old.slots { minted = self.old.slots.minted + 1 } } }
        ensures desk { StandsAt N.desks (slot_desk C) result.desk }
        ensures one { result.amount ≡ 1 }
    {
        self.queue.keeps();
        self.slots.mint(desks.desk(2 * C), 1)
    }

    /// Makes the free room so great that `n` line rights more may be minted. An error changes nothing.
    pub fn reserve_lines(&mut self, n: u64) -> Result<(), AllocError>
        requires { n < LINES }
        ensures same { self.new ≡ record self.old { journal = record self.old.journal { free = self.new.journal.free } } }
        ensures room { OnOk result (self.old.lines.minted + n ≤ self.new.journal.free) }
        ensures err { OnErr result (self.new ≡ self.old) }
    {
        // Fewer line rights than 2^40.
        let _ = self.journal.len();
        self.journal.reserve(self.lines.minted() + n)
    }

    /// Mints `n` line rights.
    pub fn mint_lines(&mut self, desks: &DeskSet, n: u64) -> Share
        requires desks { desks.now ≡ N.desks }
        requires room { self.old.lines.minted + n ≤ self.old.journal.free }
        ensures held { self.new ≡ record self.old { lines = record self.old.lines { minted = self.old.lines.minted + n } } }
        ensures desk { StandsAt N.desks (line_desk C) result.desk }
        ensures amount { result.amount ≡ n }
    {
        self.queue.keeps();
        // Fewer line rights than 2^40.
        let _ = self.journal.len();
        self.lines.mint(desks.desk(2 * C + 1), n)
    }

    /// Ends the held cluster with every thread that is queued there. It gives out the journal, and the yard's slot rights of
    /// those threads.
    pub(crate) fn close(self) -> (Journal, Share)
        ensures journal { result.0 ≡ self.journal }
        ensures desk { StandsAt N.desks yard_slot_desk result.1.desk }
        ensures amount { result.1.amount ≡ length self.cluster.flat.entries }
    {
        self.queue.keeps();
        // So few lines that no number of the queue comes near its end.
        let _ = self.journal.len();
        let HeldCluster {
            queue,
            journal,
            slots: _,
            lines: _,
            others,
        } = self;
        end_queue(Box::into_inner(queue));
        (journal, others.into_yard())
    }
}

/// An empty queue of a cluster, in memory of its own. An error is want of memory.
pub(crate) fn new_queue<K: Cluster>(
    alloc: Global,
    setup: &Setup,
    c: u8,
) -> Result<Box<K>, AllocError>
    requires { c < cluster_count setup.now }
    ensures { IfOk result (λ made. K.Cluster.view made.value ≡ new_cluster setup.now c) }
{
    match Box::new(alloc, K::new(alloc, setup, c)?) {
        Ok(queue) => Ok(queue),
        Err(failed) => {
            failed.value.end();
            Err(AllocError)
        }
    }
}

// A step's line is added to a journal.
pub(crate) fn add_line(journal: &mut Journal, entry: Entry, mark: Option<u32>)
    requires { 1 ≤ journal.old.free }
    ensures { journal.new ≡ pushed (record { entry = entry; mark = mark }) journal.old }
{
    journal.push(Line { entry, mark });
}

// Ends a queue, and every thread in it.
fn end_queue<K: Cluster>(queue: K)
    requires few { length (K.Cluster.view queue).flat.entries ≤ 4096 }
    requires numbers { AreSmall (K.Cluster.view queue).flat }
{
    let mut queue = queue;
    for _ in 0..queue.len() {
        if let Some(thread) = queue.take_any() {
            thread.into_facts();
        }
    }
    queue.end();
}
