//! Whether the numbers of a setup are in their ranges. The rows are those of the setup line.

ghost use Rattle.std.specs.Prelude.{◌≡◌, ◌≤◌, length, nat_le, sum_by, true};
ghost use Rattle.std.specs.List.{list_all, list_any};
ghost use Rattle.flat_policy.specs.Policy.Ranges.{all_below, between, clusters_in_range, common_ranges, edges_in_range, ends_differ, first_out, first_out_of_range, first_out_of_range_timed, groups_in_range, is_cluster_row, is_edge_row, is_times_row, nth, same_ends, threads_in_range, times_in_range};

use crate::setup::Field;
use sched_base::limits::{
    LEAST_QUANTUM, LEAST_RATE, MOST_ACTORS, MOST_CLUSTERS, MOST_EDGES, MOST_GROUPS, MOST_QUANTUM,
    MOST_RATE, MOST_THREADS, MOST_WARP, MOST_WCEL, MOST_WEIGHT, STEAL_MASKS,
};

/// The first field out of range of a setup of version 1.
pub(super) fn first_out_of_range(
    clusters: &[[u64; 2]],
    edges: &[[u64; 5]],
    groups: &[[u64; 6]],
    threads: u64,
    version: u64,
) -> Option<Field>
    ensures { result ≡ first_out_of_range clusters.now edges.now groups.now threads version }
{
    match first_common_fault(clusters, edges, groups, threads) {
        None if version != 1 => Some(Field::Version),
        fault => fault,
    }
}

/// The first field out of range of a setup of version 2.
pub(super) fn first_out_of_range_timed(
    clusters: &[[u64; 2]],
    edges: &[[u64; 5]],
    groups: &[[u64; 6]],
    threads: u64,
    times: &[[[u64; 6]; 3]],
) -> Option<Field>
    ensures { result ≡ first_out_of_range_timed clusters.now edges.now groups.now threads times.now }
{
    match first_common_fault(clusters, edges, groups, threads) {
        None if !times_in_range(clusters.len(), times) => Some(Field::Times),
        fault => fault,
    }
}

/// The first field out of range of those that both versions have.
fn first_common_fault(
    clusters: &[[u64; 2]],
    edges: &[[u64; 5]],
    groups: &[[u64; 6]],
    threads: u64,
) -> Option<Field>
    ensures { result ≡ first_out (common_ranges clusters.now edges.now groups.now threads) }
{
    let count = clusters.len() as u64;
    if !clusters_in_range(clusters) {
        return Some(Field::Clusters);
    }
    if !edges_in_range(count, edges) {
        return Some(Field::Edges);
    }
    if !groups_in_range(count, groups) {
        return Some(Field::Groups);
    }
    if !between(1, MOST_THREADS as u64, threads) {
        return Some(Field::Threads);
    }
    None
}

/// Whether `n` is between two numbers, both included.
fn between(low: u64, high: u64, n: u64) -> bool
    ensures { result ≡ between low high n }
{
    low <= n && n <= high
}

/// Whether each number is below `n`.
fn all_below(n: u64, xs: &[u64]) -> bool
    ensures { result ≡ all_below n xs.now }
{
    xs.iter().all(|x| *x < n)
}

fn is_cluster_row(row: &[u64; 2]) -> bool
    ensures { result ≡ is_cluster_row row.now }
{
    between(1, MOST_ACTORS as u64, row[0]) && between(LEAST_RATE as u64, MOST_RATE as u64, row[1])
}

fn are_cluster_rows(rows: &[[u64; 2]]) -> bool
    ensures { result ≡ list_all is_cluster_row rows.now }
{
    rows.iter().all(|row| is_cluster_row(row))
}

fn clusters_in_range(clusters: &[[u64; 2]]) -> bool
    ensures { result ≡ clusters_in_range clusters.now }
{
    between(1, MOST_CLUSTERS as u64, clusters.len() as u64)
        && are_cluster_rows(clusters)
        && actors_of(clusters) <= MOST_ACTORS as u64
}

/// How many processors the clusters have together.
pub(super) fn actors_of(clusters: &[[u64; 2]]) -> u64
    requires few { length clusters.now ≤ MOST_CLUSTERS }
    requires each { list_all is_cluster_row clusters.now ≡ true }
    ensures { result ≡ sum_by (λ row. nth row 0) clusters.now }
{
    let mut actors = 0;
    for row in clusters {
        actors += row[0];
    }
    actors
}

fn is_edge_row(count: u64, row: &[u64; 5]) -> bool
    ensures { result ≡ is_edge_row count row.now }
{
    let [from, to, weight, migrate, steal] = *row;
    from < count
        && to < count
        && from != to
        && weight <= MOST_WEIGHT as u64
        && migrate <= 1
        && steal < STEAL_MASKS as u64
}

fn same_ends(x: &[u64; 5], y: &[u64; 5]) -> bool
    ensures { result ≡ same_ends x.now y.now }
{
    x[0] == y[0] && x[1] == y[1]
}

fn are_edge_rows(count: u64, rows: &[[u64; 5]]) -> bool
    ensures { result ≡ list_all (is_edge_row count) rows.now }
{
    rows.iter().all(|row| is_edge_row(count, row))
}

/// Whether one of the edges has the ends of `edge`.
fn has_ends_of(edge: &[u64; 5], edges: &[[u64; 5]]) -> bool
    ensures { result ≡ list_any (same_ends edge.now) edges.now }
{
    edges.iter().any(|other| same_ends(edge, other))
}

/// Whether no pair of clusters has two edges.
fn ends_differ(edges: &[[u64; 5]]) -> bool
    ensures { result ≡ ends_differ edges.now }
{
    for (k, edge) in edges.iter().enumerate() {
        if has_ends_of(edge, &edges[k + 1..]) {
            return false;
        }
    }
    true
}

fn edges_in_range(count: u64, edges: &[[u64; 5]]) -> bool
    ensures { result ≡ edges_in_range count edges.now }
{
    edges.len() <= MOST_EDGES && are_edge_rows(count, edges) && ends_differ(edges)
}

fn groups_in_range(count: u64, groups: &[[u64; 6]]) -> bool
    ensures { result ≡ groups_in_range count groups.now }
{
    between(1, MOST_GROUPS as u64, groups.len() as u64) && are_groups(count, groups)
}

fn are_groups(count: u64, groups: &[[u64; 6]]) -> bool
    ensures { result ≡ list_all (all_below count) groups.now }
{
    groups.iter().all(|row| all_below(count, row))
}

/// Whether each number is `n` at most.
fn all_at_most(n: u64, xs: &[u64]) -> bool
    ensures { result ≡ list_all (λ x. nat_le x n) xs.now }
{
    xs.iter().all(|x| *x <= n)
}

fn all_between(low: u64, high: u64, xs: &[u64]) -> bool
    ensures { result ≡ list_all (between low high) xs.now }
{
    xs.iter().all(|x| between(low, high, *x))
}

/// Whether times, the rows WCEL, WARP and QUANTUM by bucket index, are in their ranges.
fn is_times_row(rows: &[[u64; 6]; 3]) -> bool
    ensures { result ≡ is_times_row rows.now }
{
    let [wcel, warp, quantum] = rows;
    all_at_most(MOST_WCEL, wcel)
        && all_at_most(MOST_WARP, warp)
        && all_between(LEAST_QUANTUM, MOST_QUANTUM, quantum)
        && wcel[0] == 0
        && warp[0] == 0
}

fn times_in_range(count: usize, times: &[[[u64; 6]; 3]]) -> bool
    ensures { result ≡ times_in_range count times.now }
{
    times.len() == count && are_times_rows(times)
}

fn are_times_rows(times: &[[[u64; 6]; 3]]) -> bool
    ensures { result ≡ list_all is_times_row times.now }
{
    times.iter().all(|rows| is_times_row(rows))
}
