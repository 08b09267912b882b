//! A cluster over one list of entries.

ghost use Rattle.std.specs.Prelude.{◌≡◌, ◌≤◌, ◌<◌, ◌+◌};

use crate::queue::Queue;
use crate::scans::{count_unbound, place_of};
use flat_policy::cluster::Cluster;
use flat_policy::laws::{calls_keep_clusters, steps_rise_by_few};
use flat_policy::setup::Setup;
use sched_base::{Bucket, Thread, Ticket};
use std::alloc::{AllocError, Global};
use std::marker::Model;

/// The queue of a cluster, as one list of entries in the order in which they arrived.
pub struct PlainCluster {
    setup: Setup,
    number: u8,
    queue: Queue,
}

impl Model for PlainCluster {
    ghost use Rattle.flat_policy.specs.Policy.Clusters.{ClusterView};

    ghost Value = { ClusterView };

    ghost use Rattle.plain_cluster.specs.PlainParts.{IsPlain, view_of};

    ghost view = { view_of };

    ghost invariant = { IsPlain };
}

impl Cluster for PlainCluster {
    ghost view = { λ p. p };

    fn new(alloc: Global, setup: &Setup, c: u8) -> Result<PlainCluster, AllocError> {
        let times = setup.cluster_times(c);
        let setup = setup.copy()?;
        setup.keeps_ranges();
        let queue = Queue::new(alloc, setup.groups(), times)?;
        Ok(PlainCluster {
            setup,
            number: c,
            queue,
        })
    }

    fn keeps(&self) {
        let _ = &self.number;
    }

    fn reserve(&mut self) -> Result<(), AllocError> {
        self.queue.rows.reserve()
    }

    fn enter(&mut self, t: Thread, head: bool, now: u64) -> Ticket {
        calls_keep_clusters();
        steps_rise_by_few();
        let now = now.max(self.queue.last);
        self.queue.enter(self.number, t, head, now)
    }

    fn select(&mut self, now: u64) -> Option<Thread> {
        calls_keep_clusters();
        let now = now.max(self.queue.last);
        self.queue.select(now)
    }

    fn offer(&mut self, to: u8, rebalance: bool, mask: u8, now: u64) -> Option<Thread> {
        calls_keep_clusters();
        steps_rise_by_few();
        let now = now.max(self.queue.last);
        self.queue.offer(to, rebalance, mask, now)
    }

    fn pull(&mut self, t: Ticket, now: u64) -> Option<Thread> {
        calls_keep_clusters();
        steps_rise_by_few();
        let now = now.max(self.queue.last);
        match place_of(self.queue.rows.as_slice(), t.slot, t.arrival) {
            Some(place) => Some(self.queue.remove(place, now)),
            None => None,
        }
    }

    fn look(&mut self, b: Bucket, now: u64) -> u32 {
        calls_keep_clusters();
        let quantum = self.setup.times(self.number, b).quantum;
        let cpus = self.setup.cpus(self.number);
        let count = count_unbound(self.queue.rows.as_slice(), b);
        self.queue.last = now.max(self.queue.last);
        count as u32 * quantum / u32::from(cpus)
    }

    fn refresh(&mut self, now: u64) -> u32 {
        calls_keep_clusters();
        steps_rise_by_few();
        let now = now.max(self.queue.last);
        self.queue.refresh(now)
    }

    fn len(&self) -> u32 {
        self.queue.rows.len()
    }

    fn spare(&self) -> u32 {
        self.queue.rows.spare()
    }

    fn last(&self) -> u64 {
        self.queue.last
    }

    fn turn(&mut self, on: bool, now: u64) {
        calls_keep_clusters();
        self.queue.last = now.max(self.queue.last);
        self.queue.on = on;
    }

    fn is_on(&self) -> bool {
        self.queue.on
    }

    fn touch(&mut self, now: u64) {
        calls_keep_clusters();
        self.queue.last = now.max(self.queue.last);
    }

    fn take_any(&mut self) -> Option<Thread> {
        calls_keep_clusters();
        steps_rise_by_few();
        let (len, last) = (self.queue.rows.len(), self.queue.last);
        if len == 0 {
            return None;
        }
        Some(self.queue.remove(len as usize - 1, last))
    }

    fn end(self) {
        let PlainCluster {
            setup: _,
            number: _,
            queue,
        } = self;
        queue.end();
    }
}
