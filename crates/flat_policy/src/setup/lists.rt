//! The lists of a setup, out of rows of numbers.

ghost use Rattle.std.specs.Prelude.{◌≡◌, ◌≤◌, All, IfOk, length, map, take};
ghost use Rattle.flat_policy.specs.Policy.Ranges.{edge_of_row};
ghost use Rattle.flat_policy.specs.Representation.SetupInside.{FitsEdge, FitsGroup, FitsSize, HasSixes, row_times, size_of_row, times_of_cluster};

use crate::setup::{ClusterSize, EdgeSpec, TIME_COLUMNS};
use bucket_tables::{Table, each_bucket};
use sched_base::limits::{BUCKET_COUNT, MOST_CLUSTERS};
use std::alloc::{AllocError, Global};

pub(super) fn cluster_sizes(
    alloc: Global,
    rows: &[[u64; 2]],
) -> Result<Vec<ClusterSize>, AllocError>
    requires { All FitsSize rows.now }
    ensures { IfOk result (λ sizes. sizes.items ≡ map size_of_row rows.now) }
{
    rows.iter()
        .map(|row| ClusterSize {
            cpus: row[0] as u8,
            rate: row[1] as u32,
        })
        .collect(alloc)
}

pub(super) fn edge_specs(alloc: Global, rows: &[[u64; 5]]) -> Result<Vec<EdgeSpec>, AllocError>
    requires { All FitsEdge rows.now }
    ensures { IfOk result (λ edges. edges.items ≡ map edge_of_row rows.now) }
{
    rows.iter()
        .map(|row| EdgeSpec {
            from: row[0] as u8,
            to: row[1] as u8,
            weight: row[2] as u32,
            migrate: row[3] == 1,
            steal: row[4] as u8,
        })
        .collect(alloc)
}

pub(super) fn group_rows(alloc: Global, rows: &[[u64; 6]]) -> Result<Vec<[u8; 6]>, AllocError>
    requires { All FitsGroup rows.now }
    ensures { IfOk result (λ groups. groups.items ≡ rows.now) }
{
    let mut groups = Vec::with_capacity(alloc, rows.len())?;
    for row in rows {
        groups.push(group_row(row))?;
    }
    Ok(groups)
}

fn group_row(row: &[u64; 6]) -> [u8; 6]
    requires { FitsGroup row.now }
    ensures { result ≡ row.now }
{
    let [ui, fg, ini, df, ut, bg] = *row;
    [ui as u8, fg as u8, ini as u8, df as u8, ut as u8, bg as u8]
}

/// The times of the clusters in a table, a row for each.
pub(super) fn time_table(times: &[[[u64; 6]; 3]]) -> Table<MOST_CLUSTERS, TIME_COLUMNS>
    requires { length times.now ≤ MOST_CLUSTERS }
    ensures rows { map row_times (take (length times.now) result) ≡ map times_of_cluster times.now }
    ensures len { length result ≡ MOST_CLUSTERS }
    ensures sixes { All HasSixes times.now }
{
    let mut table = Table::<MOST_CLUSTERS, TIME_COLUMNS>::filled(0);
    for (c, rows) in times.iter().enumerate() {
        table.set_row(c, time_row(rows));
    }
    table
}

/// One row of WCEL, WARP and QUANTUM, each by bucket index.
fn time_row(rows: &[[u64; 6]]) -> [u64; TIME_COLUMNS]
    requires { length rows.now ≡ 3 }
    ensures times { row_times result ≡ times_of_cluster rows.now }
    ensures sixes { HasSixes rows.now }
{
    let (wcel, warp, quantum) = (rows[0], rows[1], rows[2]);
    let mut row = [0; TIME_COLUMNS];
    each_bucket!(bucket => {
        let column = bucket.index() as usize;
        row[column] = wcel[column];
        row[column + BUCKET_COUNT] = warp[column];
        row[column + 2 * BUCKET_COUNT] = quantum[column];
    });
    row
}
