//! Worked examples of the calls.

ghost use Rattle.std.specs.Prelude.{◌≡◌};

use super::*;
use sched_base::Bucket;

fn lane(bucket: Bucket, bound: bool) -> Lane
    ensures { result ≡ record { bucket = bucket; bound = bound } }
{
    Lane { bucket, bound }
}

#[test]
fn the_first_by_deadline_then_bucket_then_bound(rt: HostRuntime) {
    let mut lanes = Lanes::new();
    assert!(rt; lanes.is_empty() && lanes.earliest().is_none());

    // at one deadline the bound lane of a bucket is first
    lanes.fill(lane(Bucket::Ut, false), 150_000);
    lanes.fill(lane(Bucket::Ut, true), 150_000);
    assert_eq!(rt; lanes.earliest(), Some(lane(Bucket::Ut, true)));
    assert!(rt; !lanes.is_empty());

    // a higher bucket at the same deadline, and then a lower one at an earlier deadline
    lanes.fill(lane(Bucket::Df, false), 150_000);
    assert_eq!(rt; lanes.earliest(), Some(lane(Bucket::Df, false)));
    lanes.fill(lane(Bucket::Bg, false), 149_999);
    assert_eq!(rt; lanes.earliest(), Some(lane(Bucket::Bg, false)));
    lanes.renew(lane(Bucket::Bg, false), 400_000);
    assert_eq!(rt; lanes.earliest(), Some(lane(Bucket::Df, false)));
    assert_eq!(rt; lanes.deadline(lane(Bucket::Bg, false)), 400_000);

    // a lane that is cleared is passed over, and keeps its deadline
    lanes.clear(lane(Bucket::Df, false));
    assert_eq!(rt; lanes.earliest(), Some(lane(Bucket::Ut, true)));
    assert!(rt; !lanes.filled(lane(Bucket::Df, false)) && lanes.filled(lane(Bucket::Ut, true)));
    assert_eq!(rt; lanes.deadline(lane(Bucket::Df, false)), 150_000);
}

#[test]
fn each_lane_has_an_index(rt: HostRuntime) {
    let mut expected = 0;
    bucket_tables::each_lane!(lane => {
        assert_eq!(rt; lane_index(lane), expected);
        assert_eq!(rt; lane_at_index(lane_index(lane)), lane);
        expected += 1;
    });
}
