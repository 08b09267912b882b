//! The indices of the ten timeshare lanes, in their order.

ghost use Rattle.std.specs.Prelude.{◌≡◌, ◌≢◌, ◌<◌, Some, slice_get};
ghost use Rattle.flat_policy.specs.Policy.Queue.{timeshare_lanes};
ghost use Rattle.root_deadlines.specs.Indices.{index_of_lane};

use bucket_tables::Lane;
use sched_base::Bucket;

/// The index of a timeshare lane among the ten, from 0 for bound foreground to 9 for unbound
/// background: by bucket index, and in one bucket the bound lane first.
pub fn lane_index(lane: Lane) -> usize
    requires { lane.bucket ≢ Bucket.Ui }
    ensures index { result ≡ index_of_lane lane }
    ensures small { result < 10 }
{
    let unbound = if lane.bound { 0 } else { 1 };
    (lane.bucket.index() as usize - 1) * 2 + unbound
}

/// The timeshare lane at an index, from 0 for bound foreground to 9 for unbound background. It is
/// computed, since a compiler then sees that `lane_index` gives the index back.
pub fn lane_at_index(index: usize) -> Lane
    requires { index < 10 }
    ensures lane { result.bucket ≢ Bucket.Ui }
    ensures at { slice_get timeshare_lanes index ≡ Some result }
{
    Lane {
        bucket: Bucket::from_index((index / 2 + 1) as u8).unwrap(),
        bound: index % 2 == 0,
    }
}
