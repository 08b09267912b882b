//! What a queue has in its lanes and clutch buckets.

ghost use Rattle.std.specs.Prelude.{◌≡◌, ◌≤◌, ◌<◌, ◌+◌, length};
ghost use Rattle.flat_policy.specs.Policy.Moves.{clutch_has_entries};
ghost use Rattle.flat_policy.specs.Policy.Precedence.{clutch_priority};
ghost use Rattle.flat_policy.specs.Policy.Queue.{clutch_place, has_entries, lane_of, unit_entries};
ghost use Rattle.plain_cluster.specs.Entries.{clutch};
ghost use Rattle.plain_cluster.specs.Queues.{flat_of};

use super::Queue;
use crate::scans::{count_in_clutch, count_in_lane, greatest_in_clutch};
use bucket_tables::Lane;
use sched_base::{Bucket, Facts};

/// The lane of a thread.
pub fn lane_of(facts: &Facts) -> Lane
    ensures { result ≡ lane_of facts.now }
{
    Lane {
        bucket: facts.bucket,
        bound: facts.bound.is_some(),
    }
}

impl Queue {
    /// Whether a lane has entries.
    pub fn has_lane(&self, lane: Lane) -> bool
        ensures { result ≡ has_entries (flat_of self.now) lane }
    {
        count_in_lane(self.rows.as_slice(), lane) != 0
    }

    /// Whether a clutch bucket has entries.
    pub fn has_clutch(&self, group: u8, bucket: Bucket) -> bool
        ensures { result ≡ clutch_has_entries (flat_of self.now) (clutch group bucket) }
    {
        count_in_clutch(self.rows.as_slice(), group, bucket) != 0
    }

    /// How many entries the unit of a thread has.
    pub fn unit_len(&self, facts: &Facts) -> usize
        ensures count { result ≡ length (unit_entries (flat_of self.now) facts.now) }
        ensures most { result ≤ length self.now.rows.rows }
    {
        let rows = self.rows.as_slice();
        if facts.bound.is_some() {
            let lane = Lane {
                bucket: facts.bucket,
                bound: true,
            };
            count_in_lane(rows, lane)
        } else {
            count_in_clutch(rows, facts.group, facts.bucket)
        }
    }

    /// The priority of a clutch bucket: the greatest of its entries', and its score.
    pub fn clutch_priority(&self, group: u8, bucket: Bucket) -> u8
        requires { clutch_place (clutch group bucket) < length self.now.units.spans }
        ensures { result ≡ clutch_priority (flat_of self.now) (clutch group bucket) }
    {
        greatest_in_clutch(self.rows.as_slice(), group, bucket) + self.units.score(group, bucket)
    }
}
