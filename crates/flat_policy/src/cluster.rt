//! What every queue of a cluster does.

ghost use Rattle.std.specs.Prelude.{◌≡◌, ◌≢◌, ◌≤◌, ◌<◌, ◌+◌, ◌^◌, Bool, Contains, Option, Some, [], is_some, length, option_map, ℕ, IfOk, OnErr, OnOk};
ghost use Rattle.sched_base.specs.declared.Facts.{Facts};
ghost use Rattle.flat_policy.specs.Laws.Kept.{RisesBy};
ghost use Rattle.flat_policy.specs.Policy.Aim.{MayEnter, load};
ghost use Rattle.flat_policy.specs.Policy.Clusters.{ClusterView, HasNumbers, IsCluster, IsSomeEntry, SameRoom, after_offer, after_pull, after_refresh, after_select, after_touch, after_turn, entered_in, moment_at, new_cluster, offer_of, pick_of, standing};
ghost use Rattle.flat_policy.specs.Policy.ClusterSteps.{facts_of};
ghost use Rattle.flat_policy.specs.Policy.Moves.{new_entry, settled_thread};
ghost use Rattle.flat_policy.specs.Policy.Queue.{Queued};
ghost use Rattle.flat_policy.specs.Policy.Offer.{mask_between};
ghost use Rattle.flat_policy.specs.Policy.Refresh.{repriced_count};
ghost use Rattle.flat_policy.specs.Policy.Setup.{cluster_count, cluster_times, cpus_of, migrates, times_for};
ghost use Rattle.flat_policy.specs.Policy.Threads.{ThreadFits};

use crate::setup::Setup;
use sched_base::limits::{MOMENT_LIMIT, MOST_THREADS};
use sched_base::{Bucket, Thread, Ticket};
use std::alloc::{AllocError, Global};

/// The queue of one cluster. Contracts see its setup, its number, its queue as the policy defines
/// it, the slot of each entry, and its spare room: how many threads may enter before it has to be
/// given memory. No call changes the setup and the number.
///
/// Every moment is in microseconds and below 2^40; the effective moment of a call is the greater of
/// the one handed in and the last. A call that takes a moment sets the last moment to it. Only
/// `new` and `reserve` take memory; each removal raises the spare room by 1 and each enter lowers it
/// by 1, so that entries and spare room are together as many as before.
pub trait Cluster: Sized {
    ghost view: { Self → ClusterView };

    /// An empty queue, which is on, without spare room.
    fn new(alloc: Global, setup: &Setup, c: u8) -> Result<Self, AllocError>
        requires { c < cluster_count setup.now }
        ensures { IfOk result (λ made. view made ≡ new_cluster setup.now c) };

    /// Does nothing. It tells a proof what every cluster keeps.
    fn keeps(&self)
        ensures { IsCluster (view self.now) };

    /// Makes room for one thread at least. An error changes nothing.
    fn reserve(&mut self) -> Result<(), AllocError>
        ensures same { view self.new ≡ record (view self.old) { spare = (view self.new).spare } }
        ensures room { OnOk result ((view self.old).spare + 1 ≤ (view self.new).spare) }
        ensures err { OnErr result (view self.new ≡ view self.old) };

    /// A thread enters, at the head or the tail of its equals. The ticket names the entry.
    fn enter(&mut self, t: Thread, head: bool, now: u64) -> Ticket
        requires spare { 1 ≤ (view self.old).spare }
        requires few { length (view self.old).flat.entries < MOST_THREADS }
        requires fits { ThreadFits (view self.old).setup t }
        requires may { MayEnter (view self.old).setup t (view self.old).number }
        requires moment { now < MOMENT_LIMIT }
        requires numbers { HasNumbers (view self.old).flat }
        ensures view { view self.new ≡ entered_in (view self.old) t head now result.slot }
        ensures slot { ¬ Contains (view self.old).slots result.slot }
        ensures cluster { result.cluster ≡ (view self.old).number }
        ensures arrival { result.arrival ≡ (view self.old).flat.next_arrival }
        ensures pri { result.pri ≡ (new_entry (view self.old).flat (settled_thread (moment_at (view self.old) now) t) head).pri }
        ensures rises { RisesBy 1 1 (view self.old).flat (view self.new).flat }
        ensures room { SameRoom (view self.old) (view self.new) };

    /// The pick leaves the queue; none exactly where nothing is queued. Windows expire either way.
    fn select(&mut self, now: u64) -> Option<Thread>
        requires moment { now < MOMENT_LIMIT }
        requires numbers { HasNumbers (view self.old).flat }
        ensures picked { result ≡ facts_of (pick_of (view self.old) now) }
        ensures view { view self.new ≡ after_select (view self.old) now }
        ensures rises { RisesBy 0 1 (view self.old).flat (view self.new).flat }
        ensures room { SameRoom (view self.old) (view self.new) };

    /// The thread that is offered to another cluster leaves the queue; none exactly where that
    /// cluster may take no thread. `rebalance` and `mask` are those of the edge to it; the mask is
    /// 63 where this cluster is off and threads may move along the edge.
    fn offer(&mut self, to: u8, rebalance: bool, mask: u8, now: u64) -> Option<Thread>
        requires there { to < cluster_count (view self.old).setup }
        requires other { to ≢ (view self.old).number }
        requires edge { rebalance ≡ migrates (view self.old).setup (view self.old).number to }
        requires mask { mask ≡ mask_between (view self.old).setup (view self.old).number to (view self.old).flat.on }
        requires moment { now < MOMENT_LIMIT }
        requires numbers { HasNumbers (view self.old).flat }
        ensures offered { result ≡ facts_of (offer_of (view self.old) to) }
        ensures view { view self.new ≡ after_offer (view self.old) to now }
        ensures rises { RisesBy 0 1 (view self.old).flat (view self.new).flat }
        ensures room { SameRoom (view self.old) (view self.new) };

    /// The entry that a ticket names leaves the queue; none, and nothing changes, exactly where no
    /// entry stands in the ticket's slot with its arrival.
    fn pull(&mut self, t: Ticket, now: u64) -> Option<Thread>
        requires moment { now < MOMENT_LIMIT }
        requires numbers { HasNumbers (view self.old).flat }
        ensures pulled { result ≡ facts_of (standing (view self.old) t.slot t.arrival) }
        ensures view { view self.new ≡ after_pull (view self.old) (standing (view self.old) t.slot t.arrival) now }
        ensures rises { RisesBy 0 1 (view self.old).flat (view self.new).flat }
        ensures room { SameRoom (view self.old) (view self.new) };

    /// The load of the queue for a bucket, in microseconds for each processor.
    fn look(&mut self, b: Bucket, now: u64) -> u32
        requires moment { now < MOMENT_LIMIT }
        ensures load { (times : _) → times ≡ times_for (cluster_times (view self.old).setup (view self.old).number) b
            → result ≡ load times (cpus_of (view self.old).setup (view self.old).number) (view self.old).flat b }
        ensures view { view self.new ≡ after_touch (view self.old) now };

    /// Prices every entry anew, and tells how many priorities changed.
    fn refresh(&mut self, now: u64) -> u32
        requires moment { now < MOMENT_LIMIT }
        requires numbers { HasNumbers (view self.old).flat }
        ensures changed { result ≡ repriced_count (view self.old).flat (moment_at (view self.old) now) }
        ensures view { view self.new ≡ after_refresh (view self.old) now }
        ensures rises { RisesBy 0 384 (view self.old).flat (view self.new).flat };

    /// How many threads are queued, at most 4096.
    fn len(&self) -> u32
        ensures { result ≡ length (view self.now).flat.entries };

    /// How many threads may enter before memory has to be reserved.
    fn spare(&self) -> u32
        ensures { result ≡ (view self.now).spare };

    /// The last moment, below 2^40.
    fn last(&self) -> u64
        ensures { result ≡ (view self.now).flat.last };

    /// Turns the cluster on or off.
    fn turn(&mut self, on: bool, now: u64)
        requires moment { now < MOMENT_LIMIT }
        ensures view { view self.new ≡ after_turn (view self.old) on now };

    /// Whether the cluster is on.
    fn is_on(&self) -> bool
        ensures { result ≡ (view self.now).flat.on };

    /// Sets the last moment, and nothing else.
    fn touch(&mut self, now: u64)
        requires moment { now < MOMENT_LIMIT }
        ensures view { view self.new ≡ after_touch (view self.old) now };

    /// Some entry leaves the queue, at the last moment; none exactly where nothing is queued. It
    /// serves to empty a queue at the end.
    fn take_any(&mut self) -> Option<Thread>
        requires numbers { HasNumbers (view self.old).flat }
        ensures taken { (e : Option Queued) × IsSomeEntry (view self.old).flat e × (result ≡ facts_of e)
            × (view self.new ≡ after_pull (view self.old) e (view self.old).flat.last) }
        ensures rises { RisesBy 0 1 (view self.old).flat (view self.new).flat }
        ensures room { SameRoom (view self.old) (view self.new) };

    /// Ends a cluster in which nothing is queued.
    fn end(self)
        requires { length (view self).flat.entries ≡ 0 };
}
