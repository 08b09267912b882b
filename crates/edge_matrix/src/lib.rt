//! The edges between clusters as tables, and what they allow.
//!
//! The edges of a setup with two clusters, and who may enter (a caller in the tests):
//!
//! ```
//! let setup = two_clusters(rt.alloc())?;
//! let edges = Edges::of(&setup);
//! let bound = facts(Bucket::Ut, Some(0), 0);
//! // `edges.may_enter(&bound, 0)` is true, and `edges.may_enter(&bound, 1)` false
//! ```
//!
//! No call here takes memory or refuses.
#![tactic(auto)]

ghost use Rattle.std.specs.Prelude.{◌≡◌};
ghost use Rattle.flat_policy.specs.Policy.Setup.{mask_has};

use bucket_tables::Table;
use flat_policy::setup::Setup;
use sched_base::limits::{MOST_CLUSTERS, STEAL_MASKS};
use sched_base::{Bucket, Facts};
use std::marker::Model;

#[cfg(test)]
mod tests;

/// The edges of a setup, by the cluster that an edge leaves and the cluster that it leads to.
/// Contracts see three tables of numbers, which are `edges_of` some setup: its own. It lies in
/// place and takes no memory.
#[derive(Clone, Copy)]
pub struct Edges {
    weights: Table<MOST_CLUSTERS, MOST_CLUSTERS>,
    /// 1 where threads may move along the edge, and 0 where not.
    migrates: Table<MOST_CLUSTERS, MOST_CLUSTERS>,
    steals: Table<MOST_CLUSTERS, MOST_CLUSTERS>,
}

impl Model for Edges {
    ghost use Rattle.edge_matrix.specs.EdgeTables.{AreEdges, EdgeTables};

    ghost Value = { EdgeTables };

    ghost view = { λ edges. record { weights = edges.weights; migrates = edges.migrates; steals = edges.steals } };

    ghost invariant = { λ edges. AreEdges (record { weights = edges.weights; migrates = edges.migrates; steals = edges.steals }) };

    ghost inverse = { λ tables. record { weights = tables.weights; migrates = tables.migrates; steals = tables.steals } };
}

impl Edges {
    ghost use Rattle.std.specs.Prelude.{◌≡◌, ◌<◌, ◌↔◌, IsTrue};
    ghost use Rattle.flat_policy.specs.Policy.Aim.{may_enter};
    ghost use Rattle.flat_policy.specs.Policy.Offer.{MayTake, mask_between, may_take};
    ghost use Rattle.flat_policy.specs.Policy.Queue.{Flat};
    ghost use Rattle.flat_policy.specs.Policy.Setup.{SetupParts, edge_weight, migrates, steal_mask};
    ghost use Rattle.edge_matrix.specs.EdgeTables.{edges_of};

    /// The edges of a setup.
    pub fn of(setup: &Setup) -> Edges
        ensures { result ≡ edges_of setup.now }
    {
        setup.keeps_ranges();
        let mut weights = Table::filled(0);
        let mut migrates = Table::filled(0);
        let mut steals = Table::filled(0);
        for k in (0..setup.edge_count()).rev() {
            let edge = setup.edge_at(k);
            let (from, to) = (edge.from as usize, edge.to as usize);
            weights.set(from, to, edge.weight as u64);
            migrates.set(from, to, edge.migrate as u64);
            steals.set(from, to, edge.steal as u64);
        }
        Edges {
            weights,
            migrates,
            steals,
        }
    }

    /// The weight of the edge from cluster `i` to cluster `j`, in microseconds; 0 for a missing
    /// edge.
    pub fn weight(&self, i: u8, j: u8) -> u32
        requires from { i < MOST_CLUSTERS }
        requires to { j < MOST_CLUSTERS }
        ensures { (setup : SetupParts) → self.now ≡ edges_of setup → result ≡ edge_weight setup i j }
    {
        self.weights.get(i as usize, j as usize) as u32
    }

    /// Whether threads may move along the edge from cluster `i` to cluster `j`. They may not along
    /// a missing edge.
    pub fn migrate(&self, i: u8, j: u8) -> bool
        requires from { i < MOST_CLUSTERS }
        requires to { j < MOST_CLUSTERS }
        ensures { (setup : SetupParts) → self.now ≡ edges_of setup → result ≡ migrates setup i j }
    {
        self.migrates.get(i as usize, j as usize) == 1
    }

    /// The bucket indices that may be stolen along the edge from cluster `i` to cluster `j`, as
    /// the bits of a number below 64; 0 for a missing edge.
    pub fn steal(&self, i: u8, j: u8) -> u8
        requires from { i < MOST_CLUSTERS }
        requires to { j < MOST_CLUSTERS }
        ensures mask { (setup : SetupParts) → self.now ≡ edges_of setup → result ≡ steal_mask setup i j }
        ensures below { result < STEAL_MASKS }
    {
        self.steals.get(i as usize, j as usize) as u8
    }

    /// The bucket indices that cluster `to` may take from cluster `from`, which is on or off, as the
    /// bits of a number below 64: all six where `from` is off and threads may move along the edge,
    /// and otherwise those of the edge.
    pub fn mask(&self, from: u8, to: u8, on: bool) -> u8
        requires from { from < MOST_CLUSTERS }
        requires to { to < MOST_CLUSTERS }
        ensures mask { (setup : SetupParts) → self.now ≡ edges_of setup → result ≡ mask_between setup from to on }
        ensures below { result < STEAL_MASKS }
    {
        if !on && self.migrate(from, to) {
            STEAL_MASKS - 1
        } else {
            self.steal(from, to)
        }
    }

    /// Whether a thread may enter cluster `c`: a bound one the cluster that it is bound to, and an
    /// unbound one its preferred cluster and those that it may move to from there.
    pub fn may_enter(&self, t: &Facts, c: u8) -> bool
        requires preferred { t.now.prefer < MOST_CLUSTERS }
        requires cluster { c < MOST_CLUSTERS }
        ensures { (setup : SetupParts) → self.now ≡ edges_of setup → result ≡ may_enter setup t.now c }
    {
        match t.bound {
            Some(bound) => c == bound,
            None => c == t.prefer || self.migrate(t.prefer, c),
        }
    }

    /// Whether cluster `c` may take a thread that is queued at cluster `j`: an unbound one that
    /// prefers `c` where threads may move there, or whose bucket index is in the mask.
    pub fn may_take(&self, j: u8, c: u8, mask: u8, t: &Facts) -> bool
        requires from { j < MOST_CLUSTERS }
        requires to { c < MOST_CLUSTERS }
        ensures takes { (setup : SetupParts) → self.now ≡ edges_of setup → result ≡ may_take c (migrates setup j c) mask t.now }
        // by the mask of the edge, as the cluster that offers is on or off
        ensures offers { (setup : SetupParts) (s : Flat) → self.now ≡ edges_of setup → mask ≡ mask_between setup j c s.on → IsTrue result ↔ MayTake setup j c s t.now }
    {
        t.bound.is_none() && (self.migrate(j, c) && t.prefer == c || is_in_mask(mask, t.bucket))
    }
}

/// Whether a mask has the bit of a bucket.
fn is_in_mask(mask: u8, bucket: Bucket) -> bool
    ensures { result ≡ mask_has mask bucket }
{
    mask >> bucket.index() & 1 == 1
}
