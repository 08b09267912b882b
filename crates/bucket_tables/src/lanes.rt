//! The six buckets and the ten timeshare lanes in their order.

ghost use Rattle.std.specs.Prelude.{◌≡◌};
ghost use Rattle.bucket_tables.specs.Lanes.{buckets_in_order, lanes_in_order};

use crate::Lane;
use sched_base::Bucket;
use sched_base::limits::{BUCKET_COUNT, LANE_COUNT};

/// The six buckets, the highest first: by bucket index.
pub fn all_buckets() -> [Bucket; BUCKET_COUNT]
    ensures { result ≡ buckets_in_order }
{
    let mut buckets = [Bucket::Ui; BUCKET_COUNT];
    let mut place = 0;
    crate::each_bucket!(bucket => {
        buckets[place] = bucket;
        place += 1;
    });
    buckets
}

/// The ten timeshare lanes, the highest first: by bucket index, and in one bucket the bound lane
/// first.
pub fn timeshare_lanes() -> [Lane; LANE_COUNT]
    ensures { result ≡ lanes_in_order }
{
    let mut lanes = [Lane {
        bucket: Bucket::Ui,
        bound: false,
    }; LANE_COUNT];
    let mut place = 0;
    crate::each_lane!(lane => {
        lanes[place] = lane;
        place += 1;
    });
    lanes
}
