//! What happens at one cluster alone.

ghost use Rattle.std.specs.Prelude.{◌≡◌, ◌≢◌, ◌<◌, ◌≤◌, Contains, length};
ghost use Rattle.flat_policy.specs.Policy.Aim.{MayEnter};
ghost use Rattle.flat_policy.specs.Policy.BuiltSetups.{IsSetup};
ghost use Rattle.flat_policy.specs.Policy.Clusters.{HasNumbers, after_offer, after_pull, after_select, after_touch, entered_in, moment_at, offer_of, pick_of, standing};
ghost use Rattle.flat_policy.specs.Policy.ClusterSteps.{facts_of};
ghost use Rattle.flat_policy.specs.Policy.Moves.{new_entry, settled_thread};
ghost use Rattle.flat_policy.specs.Policy.Setup.{cluster_count};
ghost use Rattle.flat_policy.specs.Policy.Threads.{ThreadFits};
ghost use Rattle.trace_machine.specs.Changes.{ChangesAt};
ghost use Rattle.trace_machine.specs.Parts.{cluster_at};

use super::Parts;
use flat_policy::cluster::Cluster;
use sched_base::limits::{MOMENT_LIMIT, MOST_THREADS};
use sched_base::{Thread, Ticket};

impl<K: Cluster> Parts<K> {
    /// Whether a cluster is on.
    pub fn is_on(&self, c: u8) -> bool
        requires { c < length self.now.clusters }
        ensures { result ≡ (cluster_at self.now c).flat.on }
    {
        self.clusters[c as usize].is_on()
    }

    /// Sets the last moment of a cluster alone.
    pub fn touch_at(&mut self, c: u8, now: u64)
        requires there { c < length self.old.clusters }
        requires moment { now < MOMENT_LIMIT }
        ensures { ChangesAt self.old self.new c (after_touch (cluster_at self.old c) now) 0 0 }
    {
        let cluster = &mut self.clusters[c as usize];
        cluster.keeps();
        cluster.touch(now);
    }

    /// A thread enters the queue of a cluster.
    pub fn enter_at(&mut self, c: u8, thread: Thread, head: bool, now: u64) -> Ticket
        requires there { c < length self.old.clusters }
        requires spare { 1 ≤ (cluster_at self.old c).spare }
        requires few { length (cluster_at self.old c).flat.entries < MOST_THREADS }
        requires fits { ThreadFits (cluster_at self.old c).setup thread }
        requires may { MayEnter (cluster_at self.old c).setup thread (cluster_at self.old c).number }
        requires moment { now < MOMENT_LIMIT }
        requires numbers { HasNumbers (cluster_at self.old c).flat }
        ensures changes { ChangesAt self.old self.new c (entered_in (cluster_at self.old c) thread head now result.slot) 1 1 }
        ensures slot { ¬ Contains (cluster_at self.old c).slots result.slot }
        ensures cluster { result.cluster ≡ (cluster_at self.old c).number }
        ensures arrival { result.arrival ≡ (cluster_at self.old c).flat.next_arrival }
        ensures pri { result.pri ≡ (new_entry (cluster_at self.old c).flat (settled_thread (moment_at (cluster_at self.old c) now) thread) head).pri }
    {
        let cluster = &mut self.clusters[c as usize];
        cluster.keeps();
        cluster.enter(thread, head, now)
    }

    /// The pick leaves the queue of a cluster.
    pub fn select_at(&mut self, c: u8, now: u64) -> Option<Thread>
        requires there { c < length self.old.clusters }
        requires moment { now < MOMENT_LIMIT }
        requires numbers { HasNumbers (cluster_at self.old c).flat }
        ensures picked { result ≡ facts_of (pick_of (cluster_at self.old c) now) }
        ensures changes { ChangesAt self.old self.new c (after_select (cluster_at self.old c) now) 0 1 }
    {
        let cluster = &mut self.clusters[c as usize];
        cluster.keeps();
        cluster.select(now)
    }

    /// The thread that a cluster offers to another leaves its queue.
    pub fn offer_at(&mut self, from: u8, to: u8, now: u64) -> Option<Thread>
        requires built { IsSetup self.old.setup }
        requires there { from < length self.old.clusters }
        requires from { from < cluster_count self.old.setup }
        requires to { to < cluster_count self.old.setup }
        requires other { to ≢ from }
        requires of_setup { (cluster_at self.old from).setup ≡ self.old.setup }
        requires number { (cluster_at self.old from).number ≡ from }
        requires moment { now < MOMENT_LIMIT }
        requires numbers { HasNumbers (cluster_at self.old from).flat }
        ensures offered { result ≡ facts_of (offer_of (cluster_at self.old from) to) }
        ensures changes { ChangesAt self.old self.new from (after_offer (cluster_at self.old from) to now) 0 1 }
    {
        let cluster = &mut self.clusters[from as usize];
        cluster.keeps();
        let rebalance = self.edges.migrate(from, to);
        let mask = self.edges.mask(from, to, cluster.is_on());
        cluster.offer(to, rebalance, mask, now)
    }

    /// The entry that a ticket names leaves the queue of a cluster.
    pub fn pull_at(&mut self, c: u8, ticket: Ticket, now: u64) -> Option<Thread>
        requires there { c < length self.old.clusters }
        requires moment { now < MOMENT_LIMIT }
        requires numbers { HasNumbers (cluster_at self.old c).flat }
        ensures pulled { result ≡ facts_of (standing (cluster_at self.old c) ticket.slot ticket.arrival) }
        ensures changes { ChangesAt self.old self.new c (after_pull (cluster_at self.old c) (standing (cluster_at self.old c) ticket.slot ticket.arrival) now) 0 1 }
    {
        let cluster = &mut self.clusters[c as usize];
        cluster.keeps();
        cluster.pull(ticket, now)
    }
}
