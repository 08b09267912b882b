//! Building and copying setups.

ghost use Rattle.std.specs.Prelude.{◌≡◌, ◌≤◌, None, IfOk, length, true};
ghost use Rattle.flat_policy.specs.Policy.BuildFaults.{field_named};
ghost use Rattle.flat_policy.specs.Policy.BuiltSetups.{IsSetup};
ghost use Rattle.flat_policy.specs.Policy.Ranges.{common_ranges, first_out, first_out_of_range, first_out_of_range_timed, parts_of, parts_of_timed, times_in_range};
ghost use Rattle.flat_policy.specs.Representation.RowParts.{IsVersion, parts_of_rows};

use crate::setup::lists::{cluster_sizes, edge_specs, group_rows, time_table};
use crate::setup::ranges::{actors_of, first_out_of_range, first_out_of_range_timed};
use crate::setup::{BuildError, Setup};
use bucket_tables::version_one;
use sched_base::limits::MOST_CLUSTERS;
use std::alloc::{AllocError, Global};

impl Setup {
    /// A setup of version 1. Rows are those of the setup line: a cluster is `[cpus, rate]`, an edge
    /// `[from, to, weight, migrate, steal]`, a group its preferred clusters by bucket index.
    ///
    /// `Range` comes exactly where a field is out of range, and names the first one in the order
    /// Clusters, Edges, Groups, Threads, Version; any version but 1 is out of range here.
    pub fn build(
        alloc: Global,
        clusters: &[[u64; 2]],
        edges: &[[u64; 5]],
        groups: &[[u64; 6]],
        threads: u64,
        version: u64,
    ) -> Result<Setup, BuildError>
        ensures range { field_named result ≡ first_out_of_range clusters.now edges.now groups.now threads version }
        ensures built { IfOk result (λ setup. setup ≡ parts_of clusters.now edges.now groups.now threads) }
    {
        if let Some(field) = first_out_of_range(clusters, edges, groups, threads, version) {
            return Err(BuildError::Range(field));
        }
        let ordinary = [version_one(); MOST_CLUSTERS];
        let times = &ordinary[..clusters.len()];
        Ok(Setup::from_rows(alloc, clusters, edges, groups, threads, times, 1)?)
    }

    /// A setup of version 2, with the times of each cluster: the rows WCEL, WARP and QUANTUM in
    /// microseconds, each by bucket index.
    ///
    /// `Range` comes exactly where a field is out of range, and names the first one in the order
    /// Clusters, Edges, Groups, Threads, Times.
    pub fn build_timed(
        alloc: Global,
        clusters: &[[u64; 2]],
        edges: &[[u64; 5]],
        groups: &[[u64; 6]],
        threads: u64,
        times: &[[[u64; 6]; 3]],
    ) -> Result<Setup, BuildError>
        ensures range { field_named result ≡ first_out_of_range_timed clusters.now edges.now groups.now threads times.now }
        ensures built { IfOk result (λ setup. setup ≡ parts_of_timed clusters.now edges.now groups.now threads times.now) }
    {
        if let Some(field) = first_out_of_range_timed(clusters, edges, groups, threads, times) {
            return Err(BuildError::Range(field));
        }
        Ok(Setup::from_rows(alloc, clusters, edges, groups, threads, times, 2)?)
    }

    /// A setup of rows in range.
    fn from_rows(
        alloc: Global,
        clusters: &[[u64; 2]],
        edges: &[[u64; 5]],
        groups: &[[u64; 6]],
        threads: u64,
        times: &[[[u64; 6]; 3]],
        version: u8,
    ) -> Result<Setup, AllocError>
        requires common { first_out (common_ranges clusters.now edges.now groups.now threads) ≡ None }
        requires times { times_in_range (length clusters.now) times.now ≡ true }
        requires version { IsVersion version times.now }
        ensures { IfOk result (λ setup. setup ≡ parts_of_rows clusters.now edges.now groups.now threads times.now version) }
    {
        Ok(Setup {
            clusters: cluster_sizes(alloc, clusters)?,
            actors: actors_of(clusters) as u8,
            edges: edge_specs(alloc, edges)?,
            groups: group_rows(alloc, groups)?,
            threads: threads as u32,
            times: time_table(times),
            version,
        })
    }

    /// A setup with the same lists and numbers.
    pub fn copy(&self) -> Result<Setup, AllocError>
        ensures { IfOk result (λ setup. setup ≡ self.now) }
    {
        Ok(Setup {
            clusters: self.clusters.clone()?,
            actors: self.actors,
            edges: self.edges.clone()?,
            groups: self.groups.clone()?,
            threads: self.threads,
            times: self.times,
            version: self.version,
        })
    }
}
