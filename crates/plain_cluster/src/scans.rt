//! Passes over rows.

ghost use Rattle.std.specs.Prelude.{◌≡◌, ◌≤◌, ◌<◌, filter, if◌then◌else◌, length, max};
ghost use Rattle.std.specs.Option.{ForSome};
ghost use Rattle.flat_policy.specs.Policy.Clusters.{standing_among};
ghost use Rattle.flat_policy.specs.Policy.Precedence.{greatest_pri};
ghost use Rattle.flat_policy.specs.Policy.Queue.{Clutch, in_clutch, in_lane};
ghost use Rattle.plain_cluster.specs.Entries.{clutch, entries_of, entry_at, is_unbound_to, slots_of};
ghost use Rattle.plain_cluster.specs.Repricing.{HaveGroups, cell};

use crate::row::Row;
use bucket_tables::{Lane, Table};
use sched_base::Bucket;
use sched_base::limits::{BUCKET_COUNT, MOST_BASE, MOST_GROUPS};

/// A number for each clutch bucket, by group and bucket index.
pub type ClutchTable = Table<MOST_GROUPS, BUCKET_COUNT>;

/// How many entries of a lane there are.
pub fn count_in_lane(rows: &[Row], lane: Lane) -> usize
    ensures count { result ≡ length (filter (in_lane lane) (entries_of rows.now)) }
    ensures most { result ≤ length rows.now }
{
    let mut count = 0;
    for row in rows {
        if row.in_lane(lane) {
            count += 1;
        }
    }
    count
}

/// How many entries of a clutch bucket there are.
pub fn count_in_clutch(rows: &[Row], group: u8, bucket: Bucket) -> usize
    ensures count { result ≡ length (filter (in_clutch (clutch group bucket)) (entries_of rows.now)) }
    ensures most { result ≤ length rows.now }
{
    let mut count = 0;
    for row in rows {
        if row.in_clutch(group, bucket) {
            count += 1;
        }
    }
    count
}

/// The greatest priority in a clutch bucket, and 0 where it has no entries.
pub fn greatest_in_clutch(rows: &[Row], group: u8, bucket: Bucket) -> u8
    ensures greatest { result ≡ greatest_pri (filter (in_clutch (clutch group bucket)) (entries_of rows.now)) }
    ensures most { result ≤ MOST_BASE }
{
    let mut greatest = 0;
    for row in rows {
        if row.in_clutch(group, bucket) {
            greatest = row.pri().max(greatest);
        }
    }
    greatest
}

/// The greatest priority of each clutch bucket, and 0 where it has no entries.
pub fn clutch_tops(rows: &[Row]) -> ClutchTable
    requires { HaveGroups (entries_of rows.now) }
    ensures { (k : Clutch) → cell result k ≡ greatest_pri (filter (in_clutch k) (entries_of rows.now)) }
{
    let mut tops = Table::filled(0);
    for row in rows {
        raise_top(&mut tops, row);
    }
    tops
}

/// The greatest priority of a row's clutch bucket is that of the row at least.
fn raise_top(tops: &mut ClutchTable, row: &Row)
    requires { row.now.entry.facts.group < MOST_GROUPS }
    ensures { (k : Clutch) → cell tops.new k ≡ (if in_clutch k row.now.entry then max (cell tops.old k) row.now.entry.pri else cell tops.old k) }
{
    tops.keeps_shape();
    let facts = row.facts();
    let (group, column) = (facts.group as usize, facts.bucket.index() as usize);
    if facts.bound.is_none() {
        let top = tops.get(group, column);
        tops.set(group, column, top.max(u64::from(row.pri())));
    }
}

/// Where the entry stands that lies in a slot and has an arrival; `None` exactly where there is
/// none.
pub fn place_of(rows: &[Row], slot: u32, arrival: u64) -> Option<usize>
    ensures place { entry_at rows.now result ≡ standing_among slot arrival (entries_of rows.now) (slots_of rows.now) }
    ensures there { ForSome result (λ place. place < length rows.now) }
{
    for (place, row) in rows.iter().enumerate() {
        if row.is_at(slot, arrival) {
            return Some(place);
        }
    }
    None
}

/// How many unbound entries are of a bucket or a higher one.
pub fn count_unbound(rows: &[Row], bucket: Bucket) -> usize
    ensures count { result ≡ length (filter (is_unbound_to bucket) (entries_of rows.now)) }
    ensures most { result ≤ length rows.now }
{
    let mut count = 0;
    for row in rows {
        if row.is_unbound_to(bucket) {
            count += 1;
        }
    }
    count
}
