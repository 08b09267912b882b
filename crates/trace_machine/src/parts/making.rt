//! Making the parts, and ending them.

ghost use Rattle.std.specs.Prelude.{◌≡◌, ◌<◌, ◌≤◌, ◌^◌, All, IfOk, length, map, replicate, ℕ};
ghost use Rattle.flat_policy.specs.Policy.BuiltSetups.{IsSetup};
ghost use Rattle.flat_policy.specs.Policy.Machine.{empty_hand, empty_machine, empty_yard};
ghost use Rattle.flat_policy.specs.Policy.Setup.{actor_count, cluster_count};
ghost use Rattle.trace_machine.specs.Making.{AreHomes, AreNew, CanEnd, IsNew};
ghost use Rattle.trace_machine.specs.Parts.{AllServe, cluster_at, hand_in, state_of};

use super::Parts;
use crate::hand::HeldHand;
use edge_matrix::Edges;
use flat_policy::cluster::Cluster;
use flat_policy::setup::Setup;
use migration::Looks;
use std::alloc::{AllocError, Global};

/// A cluster with spare room for so many threads as may live.
fn roomy<K: Cluster>(alloc: Global, setup: &Setup, c: u8) -> Result<K, AllocError>
    requires { c < cluster_count setup.now }
    ensures { IfOk result (λ made. IsNew setup.now c (K.Cluster.view made)) }
{
    let mut cluster = K::new(alloc, setup, c)?;
    for _ in 0..setup.threads() {
        if cluster.reserve().is_err() {
            cluster.end();
            return Err(AllocError);
        }
    }
    Ok(cluster)
}

/// Ends a cluster, and every thread that is queued there.
fn end_cluster<K: Cluster>(cluster: K)
    requires { CanEnd (K.Cluster.view cluster) }
{
    let mut cluster = cluster;
    cluster.keeps();
    for _ in 0..cluster.len() {
        if let Some(thread) = cluster.take_any() {
            thread.into_facts();
        }
    }
    cluster.end();
}

/// Ends clusters, and every thread that is queued there.
fn end_clusters<K: Cluster>(clusters: Vec<K>)
    requires { All CanEnd (map K.Cluster.view clusters.items) }
{
    let mut clusters = clusters;
    while let Some(cluster) = clusters.pop() {
        end_cluster(cluster);
    }
    clusters.destroy_empty();
}

/// Ends hands, and every thread that they hold.
fn end_hands(hands: Vec<HeldHand>) {
    let mut hands = hands;
    while let Some(hand) = hands.pop() {
        let HeldHand {
            thread,
            looks: _,
            last: _,
        } = hand;
        if let Some(thread) = thread {
            thread.into_facts();
        }
    }
    hands.destroy_empty();
}

/// A cluster for each number.
#[tactic(auto, using(crate::proofs::Making::made_more))]
fn made_clusters<K: Cluster>(alloc: Global, setup: &Setup) -> Result<Vec<K>, AllocError>
    ensures { IfOk result (λ made. AreNew setup.now (cluster_count setup.now) (map K.Cluster.view made.items)) }
{
    let mut clusters = Vec::with_capacity(alloc, setup.clusters() as usize)?;
    for c in 0..setup.clusters() {
        match roomy(alloc, setup, c) {
            Ok(cluster) => clusters.push_reserved(cluster),
            Err(_) => {
                end_clusters(clusters);
                return Err(AllocError);
            }
        }
    }
    Ok(clusters)
}

/// An empty hand for each actor.
fn made_hands(alloc: Global, setup: &Setup) -> Result<Vec<HeldHand>, AllocError>
    ensures { IfOk result (λ made. map (hand_in setup.now) made.items ≡ replicate (actor_count setup.now) (empty_hand setup.now 0)) }
{
    setup.keeps_ranges();
    let mut hands = Vec::with_capacity(alloc, setup.actors() as usize)?;
    for _ in 0..setup.actors() {
        hands.push_reserved(HeldHand {
            thread: None,
            looks: Looks::new(),
            last: 0,
        });
    }
    Ok(hands)
}

/// The cluster of each actor.
#[tactic(auto, using(crate::proofs::Making::homes_more))]
fn made_homes(alloc: Global, setup: &Setup) -> Result<Vec<u8>, AllocError>
    ensures { IfOk result (λ made. AreHomes setup.now made.items) }
{
    let mut homes = Vec::with_capacity(alloc, setup.actors() as usize)?;
    for actor in 0..setup.actors() {
        homes.push_reserved(setup.home(actor));
    }
    Ok(homes)
}

impl<K: Cluster> Parts<K> {
    /// Empty queues with spare room for every thread that may live, and empty hands.
    pub fn new(alloc: Global, setup: Setup) -> Result<Parts<K>, AllocError>
        ensures setup { IfOk result (λ made. made.setup ≡ setup) }
        ensures built { IfOk result (λ made. IsSetup made.setup) }
        ensures state { IfOk result (λ made. state_of made empty_yard ≡ empty_machine setup) }
        ensures serve { IfOk result (λ made. AllServe 0 made) }
    {
        setup.keeps_ranges();
        let homes = made_homes(alloc, &setup)?;
        let hands = made_hands(alloc, &setup)?;
        match made_clusters(alloc, &setup) {
            Ok(clusters) => {
                let edges = Edges::of(&setup);
                Ok(Parts {
                    setup,
                    edges,
                    homes,
                    clusters,
                    hands,
                })
            }
            Err(_) => {
                end_hands(hands);
                Err(AllocError)
            }
        }
    }

    /// Ends the queues, the hands and every thread in them.
    pub fn end(self)
        requires clusters { length self.clusters ≡ cluster_count self.setup }
        requires serve { AllServe (2 ^ 50) self }
    {
        let Parts {
            setup: _,
            edges: _,
            homes: _,
            clusters,
            hands,
        } = self;
        end_clusters(clusters);
        end_hands(hands);
    }
}
