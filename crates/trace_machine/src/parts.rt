//! The clusters and the hands, and what each act does at them.

ghost use Rattle.std.specs.Prelude.{◌≡◌, ◌<◌, ◌≤◌, ◌+◌, IfOk, IsSome, IsTrue, None, Some, length, slice_set, ℕ};
ghost use Rattle.flat_policy.specs.Laws.Sound.{HandFits};
ghost use Rattle.flat_policy.specs.Policy.Aim.{MayEnter, may_enter, not_looked};
ghost use Rattle.flat_policy.specs.Policy.BuiltSetups.{IsSetup};
ghost use Rattle.flat_policy.specs.Policy.Clusters.{NameStands};
ghost use Rattle.flat_policy.specs.Policy.Machine.{empty_hand, empty_yard, empty_machine, filled_hand, kept_hand};
ghost use Rattle.flat_policy.specs.Policy.Setup.{actor_count, cluster_count, home_of};
ghost use Rattle.trace_machine.specs.Parts.{AllServe, Does, IsQueuedAs, IsReady, cluster_at, hand_of, state_of};

mod asking;
mod clusters;
mod hands;
mod making;
mod moving;
mod touching;

use crate::hand::HeldHand;
use edge_matrix::Edges;
use flat_policy::cluster::Cluster;
use flat_policy::setup::Setup;
use std::marker::Model;

/// The setup with its edges, a cluster for each number, and a hand for each actor.
pub struct Parts<K: Cluster> {
    setup: Setup,
    edges: Edges,
    // The cluster of each actor, which the setup would go through its clusters for.
    homes: Vec<u8>,
    clusters: Vec<K>,
    hands: Vec<HeldHand>,
}

impl<K: Cluster> Model for Parts<K> {
    ghost use Rattle.std.specs.Prelude.{map};
    ghost use Rattle.trace_machine.specs.Parts.{PartsView, hand_in};

    ghost Value = { PartsView };

    ghost view = { λ p. record {
      setup = p.setup;
      clusters = map K.Cluster.view p.clusters.items;
      hands = map (hand_in p.setup) p.hands.items;
    } };

    ghost use Rattle.std.specs.Prelude.{◌≡◌};
    ghost use Rattle.edge_matrix.specs.EdgeTables.{edges_of};
    ghost use Rattle.trace_machine.specs.Making.{AreHomes};

    ghost invariant = { λ p. (p.edges ≡ edges_of p.setup) × AreHomes p.setup p.homes.items };
}
