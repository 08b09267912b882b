//! What is asked of the parts before an act. Nothing changes.

ghost use Rattle.std.specs.Prelude.{◌≡◌, ◌<◌, ◌≤◌, IsSome, None, Some, is_some, length, option_map, ℕ};
ghost use Rattle.sched_base.specs.declared.Facts.{Facts};
ghost use Rattle.flat_policy.specs.Policy.Machine.{not_allowed};
ghost use Rattle.flat_policy.specs.Policy.Setup.{actor_count, cluster_count, home_of};
ghost use Rattle.migration.specs.Looks.{IsAim};
ghost use Rattle.trace_machine.specs.Parts.{IsReady, cluster_at, hand_of, queued_in};

use super::Parts;
use flat_policy::cluster::Cluster;
use flat_policy::laws::fitting_prefers_among;
use flat_policy::setup::Setup;
use migration::LookFirst;
use sched_base::Facts;
use sched_base::limits::MOST_CLUSTERS;

impl<K: Cluster> Parts<K> {
    /// The setup that the parts were made with.
    pub fn setup(&self) -> &Setup
        ensures { result.now ≡ self.now.setup }
    {
        &self.setup
    }

    /// The actor's cluster.
    pub fn home(&self, actor: u8) -> u8
        requires { actor < actor_count self.now.setup }
        ensures home { result ≡ home_of self.now.setup actor }
        ensures below { result < cluster_count self.now.setup }
    {
        self.homes[actor as usize]
    }

    /// Whether the hand holds a thread.
    pub fn holds(&self, actor: u8) -> bool
        requires { actor < length self.now.hands }
        ensures { result ≡ is_some (hand_of self.now actor).thread }
    {
        self.hands[actor as usize].thread.is_some()
    }

    /// The facts of the hand's thread.
    pub fn hand(&self, actor: u8) -> Option<Facts>
        requires { actor < length self.now.hands }
        ensures { result ≡ (hand_of self.now actor).thread }
    {
        match &self.hands[actor as usize].thread {
            Some(thread) => Some(thread.facts()),
            None => None,
        }
    }

    /// The name of the hand's thread.
    pub fn held_name(&self, actor: u8) -> Option<u32>
        requires { actor < length self.now.hands }
        ensures { result ≡ option_map (λ (t : Facts). t.name) (hand_of self.now actor).thread }
    {
        match &self.hands[actor as usize].thread {
            Some(thread) => Some(thread.facts().name),
            None => None,
        }
    }

    /// The last moment of an actor.
    pub fn hand_last(&self, actor: u8) -> u64
        requires { actor < length self.now.hands }
        ensures { result ≡ (hand_of self.now actor).last }
    {
        self.hands[actor as usize].last
    }

    /// The last moment of a cluster.
    pub fn cluster_last(&self, c: u8) -> u64
        requires { c < length self.now.clusters }
        ensures { result ≡ (cluster_at self.now c).flat.last }
    {
        self.clusters[c as usize].last()
    }

    /// Whether the hand holds a thread that may not enter a cluster.
    pub fn is_kept_out(&self, actor: u8, c: u8) -> bool
        requires ready { IsReady self.now actor }
        requires cluster { c < cluster_count self.now.setup }
        ensures { result ≡ (not_allowed self.now.setup (hand_of self.now actor).thread c).holds }
    {
        fitting_prefers_among();
        match &self.hands[actor as usize].thread {
            Some(thread) => !self.edges.may_enter(&thread.facts(), c),
            None => false,
        }
    }

    /// The cluster that the hand's thread should enter, by the hand's looks.
    pub fn aim(&self, actor: u8) -> Result<u8, LookFirst>
        requires ready { IsReady self.now actor }
        requires held { IsSome (hand_of self.now actor).thread }
        ensures { (t : Facts) → (hand_of self.now actor).thread ≡ Some t → IsAim self.now.setup (hand_of self.now actor).looks t result }
    {
        fitting_prefers_among();
        let hand = &self.hands[actor as usize];
        match &hand.thread {
            Some(thread) => hand.looks.aim(&self.edges, &thread.facts()),
            None => unreachable!(),
        }
    }
    /// How many threads are queued in all clusters.
    pub fn queued(&self) -> u64
        requires { length self.now.clusters ≤ MOST_CLUSTERS }
        ensures { result ≡ queued_in self.now.clusters }
    {
        let mut count: u64 = 0;
        for cluster in &self.clusters {
            count += cluster.len() as u64;
        }
        count
    }
}
