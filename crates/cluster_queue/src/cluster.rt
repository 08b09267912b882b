//! A cluster over nested heaps.

ghost use Rattle.std.specs.Prelude.{◌≡◌, ◌≤◌, ◌<◌, ◌+◌};

use crate::queue::Queue;
use flat_policy::cluster::Cluster;
use flat_policy::laws::{
    calls_keep_clusters, empty_is_well_formed, fitting_prefers_among, steps_rise_by_few,
};
use flat_policy::setup::Setup;
use sched_base::{Bucket, Thread, Ticket};
use std::alloc::{AllocError, Global};
use std::marker::Model;

/// The queue of a cluster, as nested pairing heaps in one arena.
pub struct ClusterQueue {
    setup: Setup,
    number: u8,
    queue: Queue,
}

impl Model for ClusterQueue {
    ghost use Rattle.flat_policy.specs.Policy.Clusters.{ClusterView};

    ghost Value = { ClusterView };

    ghost use Rattle.cluster_queue.specs.ClusterParts.{IsClusterQueue, view_of};

    ghost view = { view_of };

    ghost invariant = { IsClusterQueue };
}

impl Cluster for ClusterQueue {
    ghost view = { λ p. p };

    fn new(alloc: Global, setup: &Setup, c: u8) -> Result<ClusterQueue, AllocError> {
        empty_is_well_formed();
        let times = setup.cluster_times(c);
        let setup = setup.copy()?;
        setup.keeps_ranges();
        let queue = Queue::new(alloc, setup.groups(), times)?;
        Ok(ClusterQueue {
            setup,
            number: c,
            queue,
        })
    }

    fn keeps(&self) {
        let _ = &self.number;
    }

    fn reserve(&mut self) -> Result<(), AllocError> {
        self.queue.reserve()
    }

    fn enter(&mut self, t: Thread, head: bool, now: u64) -> Ticket {
        calls_keep_clusters();
        steps_rise_by_few();
        fitting_prefers_among();
        let now = now.max(self.queue.last);
        self.queue.enter(self.number, t, head, now)
    }

    fn select(&mut self, now: u64) -> Option<Thread> {
        calls_keep_clusters();
        let now = now.max(self.queue.last);
        self.queue.select(now)
    }

    fn offer(&mut self, to: u8, rebalance: bool, mask: u8, now: u64) -> Option<Thread> {
        calls_keep_clusters();
        steps_rise_by_few();
        let now = now.max(self.queue.last);
        self.queue.offer(to, rebalance, mask, now)
    }

    fn pull(&mut self, t: Ticket, now: u64) -> Option<Thread> {
        calls_keep_clusters();
        steps_rise_by_few();
        let now = now.max(self.queue.last);
        if self.queue.stands_at(t.slot, t.arrival) {
            Some(self.queue.take(t.slot, false, now))
        } else {
            None
        }
    }

    fn look(&mut self, b: Bucket, now: u64) -> u32 {
        calls_keep_clusters();
        let now = now.max(self.queue.last);
        let quantum = self.setup.times(self.number, b).quantum;
        let cpus = self.setup.cpus(self.number);
        let count = self.queue.heaps.count_unbound(b);
        self.queue.touch(now);
        count * quantum / u32::from(cpus)
    }

    fn refresh(&mut self, now: u64) -> u32 {
        calls_keep_clusters();
        steps_rise_by_few();
        let now = now.max(self.queue.last);
        self.queue.refresh(now)
    }

    fn len(&self) -> u32 {
        self.queue.len
    }

    fn spare(&self) -> u32 {
        self.queue.spare
    }

    fn last(&self) -> u64 {
        self.queue.last
    }

    fn turn(&mut self, on: bool, now: u64) {
        calls_keep_clusters();
        let now = now.max(self.queue.last);
        self.queue.turn(on, now);
    }

    fn is_on(&self) -> bool {
        self.queue.on
    }

    fn touch(&mut self, now: u64) {
        calls_keep_clusters();
        let now = now.max(self.queue.last);
        self.queue.touch(now);
    }

    fn take_any(&mut self) -> Option<Thread> {
        calls_keep_clusters();
        steps_rise_by_few();
        let last = self.queue.last;
        let slot = self.queue.some_slot()?;
        Some(self.queue.take(slot, false, last))
    }

    fn end(self) {
        let ClusterQueue {
            setup: _,
            number: _,
            queue,
        } = self;
        queue.end();
    }
}
