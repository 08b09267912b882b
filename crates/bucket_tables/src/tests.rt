//! Worked examples of the calls.

use super::*;
use sched_base::limits::MOST_CLUSTERS;

#[test]
fn a_table_keeps_what_is_put_in(rt: HostRuntime) {
    let mut table = Table::<MOST_CLUSTERS, 18>::filled(7);
    table.set(0, 17, 1);
    table.set(7, 0, u64::MAX);
    let copy = table;
    table.set(7, 0, 5);
    table.set_row(3, [9; 18]);
    assert_eq!(rt;
        (table.get(0, 17), table.get(7, 0), table.get(7, 17)),
        (1, 5, 7)
    );
    assert_eq!(rt;
        (table.get(2, 17), table.get(3, 17), copy.get(3, 17)),
        (7, 9, 7)
    );
    assert_eq!(rt; copy.get(7, 0), u64::MAX);
}

#[test]
fn times_of_version_one(rt: HostRuntime) {
    let rows = version_one();
    for (bucket, expected) in [
        (Bucket::Ui, (0, 0, 10000)),
        (Bucket::Fg, (0, 8000, 10000)),
        (Bucket::Ini, (37500, 4000, 8000)),
        (Bucket::Df, (75000, 2000, 6000)),
        (Bucket::Ut, (150000, 1000, 4000)),
        (Bucket::Bg, (250000, 0, 2000)),
    ] {
        let column = bucket.index() as usize;
        assert_eq!(rt; (wcel(bucket), warp(bucket), quantum(bucket)), expected);
        assert_eq!(rt;
            (rows[0][column], rows[1][column], rows[2][column]),
            expected
        );
    }
}

#[test]
fn each_case_once(rt: HostRuntime) {
    let buckets = all_buckets();
    for (place, bucket) in buckets.iter().enumerate() {
        assert_eq!(rt; bucket.index() as usize, place);
    }
    let lanes = timeshare_lanes();
    for (place, bucket, bound) in [
        (0, Bucket::Fg, true),
        (1, Bucket::Fg, false),
        (6, Bucket::Ut, true),
        (9, Bucket::Bg, false),
    ] {
        assert!(rt; place < lanes.len());
        assert_eq!(rt; lanes[place], Lane { bucket, bound });
    }
}
