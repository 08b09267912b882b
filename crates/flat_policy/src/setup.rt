//! The setup: the clusters, the edges between them, the groups and the times.

ghost use Rattle.std.specs.Prelude.{IsTrue, ◌≡◌, ◌≤◌, ◌<◌, length, map, slice_get, sum_by};
ghost use Rattle.flat_policy.specs.Policy.Setup.{actor_count, cluster_count, cluster_times, cpus_of, group_count, home_among, home_of, preferred_cluster, rate_of, times_for};
ghost use Rattle.flat_policy.specs.Policy.Machine.{fits_act, fits_step, numbers_fit};
ghost use Rattle.flat_policy.specs.Policy.BuiltSetups.{IsClusterTimes, IsEdge, IsSetup, IsTimes};
ghost use Rattle.flat_policy.specs.Representation.SetupInside.{parts_of_size};

mod build;
mod lists;
mod ranges;

use bucket_tables::Table;
use sched_base::limits::{
    BUCKET_COUNT, LEAST_RATE, MOMENT_LIMIT, MOST_ACTORS, MOST_BASE, MOST_CLUSTERS, MOST_EDGES,
    MOST_GROUPS, MOST_RATE, MOST_THREADS,
};
use sched_base::{Act, Bucket, Step};
use std::alloc::AllocError;
use std::fmt;
use std::marker::Model;

/// The three times of a bucket in a cluster, in microseconds.
#[derive(Clone, Copy, Debug, PartialEq, Eq)]
pub struct Times {
    pub wcel: u32,
    pub warp: u32,
    pub quantum: u32,
}

/// A directed edge between two clusters. Threads move along it where `migrate` holds, at the cost
/// of the weight in microseconds; the bits of `steal` are the bucket indices that may be stolen.
#[derive(Clone, Copy, Debug, PartialEq, Eq)]
pub struct EdgeSpec {
    pub from: u8,
    pub to: u8,
    pub weight: u32,
    pub migrate: bool,
    pub steal: u8,
}

/// A field of the setup line.
#[derive(Clone, Copy, Debug, PartialEq, Eq)]
pub enum Field {
    Whole,
    Clusters,
    Edges,
    Groups,
    Threads,
    Times,
    Version,
}

impl fmt::Display for Field {
    fn fmt<W: fmt::Write>(&self, f: &mut fmt::Formatter<W>) -> fmt::Result {
        f.write_str(match self {
            Field::Whole => "whole",
            Field::Clusters => "clusters",
            Field::Edges => "edges",
            Field::Groups => "groups",
            Field::Threads => "threads",
            Field::Times => "times",
            Field::Version => "version",
        })
    }
}

/// Why a setup is not built.
#[derive(Clone, Copy, Debug, PartialEq, Eq, thiserror::Error)]
pub enum BuildError {
    /// The first field out of its range.
    #[error("range of {0}")]
    Range(Field),
    /// Want of memory.
    #[error("out of memory")]
    Memory,
}

impl From<AllocError> for BuildError {
    ghost use Rattle.std.specs.Prelude.{◌≡◌};
    ghost use Rattle.flat_policy.specs.declared.setup.BuildError.TheVariants.{Memory};

    ghost from_gives = { λ _ e. e ≡ Memory };

    fn from(_e: AllocError) -> BuildError {
        BuildError::Memory
    }
}

/// A cluster: how many processors it has, and how much work each does in 1000 microseconds.
#[derive(Clone, Copy)]
struct ClusterSize {
    cpus: u8,
    rate: u32,
}

/// A row of the table of times: the WCEL, WARP and QUANTUM of each bucket, one after the other.
const TIME_COLUMNS: usize = 3 * BUCKET_COUNT;

/// A setup in its ranges. Contracts see its lists and numbers.
#[derive(Drop)]
pub struct Setup {
    clusters: Vec<ClusterSize>,
    actors: u8,
    edges: Vec<EdgeSpec>,
    groups: Vec<[u8; BUCKET_COUNT]>,
    threads: u32,
    times: Table<MOST_CLUSTERS, TIME_COLUMNS>,
    version: u8,
}

impl Model for Setup {
    ghost use Rattle.flat_policy.specs.Policy.Setup.{SetupParts};

    ghost Value = { SetupParts };

    ghost use Rattle.std.specs.Prelude.{◌≡◌, length};
    ghost use Rattle.flat_policy.specs.Policy.Setup.{actor_count};
    ghost use Rattle.flat_policy.specs.Representation.SetupInside.{IsInside, inside_parts};

    ghost view = { inside_parts };

    ghost invariant = { IsInside };
}

impl Setup {
    /// Does nothing. It tells a proof what every setup keeps: all its parts are in their ranges.
    pub fn keeps_ranges(&self)
        ensures { IsSetup self.now }
    {
        let _threads = self.threads;
    }

    /// The number of clusters, 1 to 8.
    pub fn clusters(&self) -> u8
        ensures count { result ≡ cluster_count self.now }
        ensures least { 1 ≤ result }
        ensures most { result ≤ MOST_CLUSTERS }
    {
        self.clusters.len() as u8
    }

    /// The number of actors, 1 to 16.
    pub fn actors(&self) -> u8
        ensures count { result ≡ actor_count self.now }
        ensures least { 1 ≤ result }
        ensures most { result ≤ MOST_ACTORS }
    {
        self.actors
    }

    /// The number of groups, 1 to 64.
    pub fn groups(&self) -> u8
        ensures count { result ≡ group_count self.now }
        ensures least { 1 ≤ result }
        ensures most { result ≤ MOST_GROUPS }
    {
        self.groups.len() as u8
    }

    /// How many threads may live at once, 1 to 4096.
    pub fn threads(&self) -> u32
        ensures threads { result ≡ self.now.threads }
        ensures least { 1 ≤ result }
        ensures most { result ≤ MOST_THREADS }
    {
        self.threads
    }

    /// The version, 1 or 2.
    pub fn version(&self) -> u8
        ensures version { result ≡ self.now.version }
        ensures least { 1 ≤ result }
        ensures most { result ≤ 2 }
    {
        self.version
    }

    /// The number of edges, at most 56.
    pub fn edge_count(&self) -> u8
        ensures count { result ≡ length self.now.edges }
        ensures most { result ≤ MOST_EDGES }
    {
        self.edges.len() as u8
    }

    /// The number of processors of a cluster, 1 to 16.
    pub fn cpus(&self, c: u8) -> u8
        requires { c < cluster_count self.now }
        ensures cpus { result ≡ cpus_of self.now c }
        ensures least { 1 ≤ result }
        ensures most { result ≤ MOST_ACTORS }
    {
        self.clusters[c as usize].cpus
    }

    /// The work that a processor of a cluster does in 1000 microseconds, 100 to 1000.
    pub fn rate(&self, c: u8) -> u32
        requires { c < cluster_count self.now }
        ensures rate { result ≡ rate_of self.now c }
        ensures least { LEAST_RATE ≤ result }
        ensures most { result ≤ MOST_RATE }
    {
        self.clusters[c as usize].rate
    }

    /// The times of a bucket in a cluster, in microseconds.
    pub fn times(&self, c: u8, b: Bucket) -> Times
        requires { c < cluster_count self.now }
        ensures times { result ≡ times_for (cluster_times self.now c) b }
        ensures ranges { IsTimes result }
    {
        let row = c as usize;
        let column = b.index() as usize;
        Times {
            wcel: self.times.get(row, column) as u32,
            warp: self.times.get(row, column + BUCKET_COUNT) as u32,
            quantum: self.times.get(row, column + 2 * BUCKET_COUNT) as u32,
        }
    }

    /// The times of a cluster, by bucket index, in microseconds.
    pub fn cluster_times(&self, c: u8) -> [Times; BUCKET_COUNT]
        requires { c < cluster_count self.now }
        ensures times { result ≡ cluster_times self.now c }
        ensures ranges { IsClusterTimes result }
    {
        self.keeps_ranges();
        [
            self.times(c, Bucket::Ui),
            self.times(c, Bucket::Fg),
            self.times(c, Bucket::Ini),
            self.times(c, Bucket::Df),
            self.times(c, Bucket::Ut),
            self.times(c, Bucket::Bg),
        ]
    }

    /// The cluster of an actor. Actors are numbered through all clusters, those of cluster 0
    /// first.
    pub fn home(&self, actor: u8) -> u8
        requires { actor < actor_count self.now }
        ensures home { result ≡ home_of self.now actor }
        ensures below { result < cluster_count self.now }
    {
        home_among(&self.clusters, actor)
    }

    /// The preferred cluster of a group for a bucket.
    pub fn prefer(&self, group: u8, bucket: Bucket) -> u8
        requires { group < group_count self.now }
        ensures cluster { result ≡ preferred_cluster self.now group bucket }
        ensures below { result < cluster_count self.now }
    {
        self.groups[group as usize][bucket.index() as usize]
    }

    /// The edge at place `k` of the setup's order, counted from 0.
    pub fn edge_at(&self, k: u8) -> EdgeSpec
        requires { k < length self.now.edges }
        ensures edge { slice_get self.now.edges k ≡ Some result }
        ensures ranges { IsEdge (cluster_count self.now) result }
    {
        self.edges[k as usize]
    }

    /// Whether the moment of a step is below 2^40, its base at most 127, and its actor, clusters,
    /// group and bound cluster below the setup's counts. Its names and spans fit by their type.
    pub fn fits(&self, s: &Step) -> bool
        ensures { result ≡ fits_step self.now s.now }
    {
        s.moment < MOMENT_LIMIT && s.actor < self.actors() && self.fits_act(s.act)
    }

    fn fits_act(&self, act: Act) -> bool
        ensures fits { result ≡ fits_act self.now act }
        ensures numbers { IsTrue (numbers_fit act) }
    {
        match act {
            Act::Make {
                group,
                base,
                bound,
                ..
            } => {
                group < self.groups()
                    && base <= MOST_BASE
                    && bound.is_none_or(|c| c < self.clusters())
            }
            Act::Enter { cluster, .. }
            | Act::Offer { cluster }
            | Act::Look { cluster }
            | Act::Off { cluster }
            | Act::On { cluster } => cluster < self.clusters(),
            _ => true,
        }
    }
}

/// The place of the cluster that has an actor, with the actors numbered through all clusters.
fn home_among(clusters: &[ClusterSize], actor: u8) -> u8
    requires some { actor < sum_by (λ k. k.cpus) clusters.now }
    requires few { length clusters.now ≤ MOST_CLUSTERS }
    ensures home { result ≡ home_among (map parts_of_size clusters.now) actor }
    ensures below { result < length clusters.now }
{
    let mut left = actor;
    for (c, size) in clusters.iter().enumerate() {
        if left < size.cpus {
            return c as u8;
        }
        left -= size.cpus;
    }
    unreachable!()
}
