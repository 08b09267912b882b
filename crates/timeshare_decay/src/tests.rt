//! Worked examples of the calls.

use super::*;

#[test]
fn usage_decays_by_ticks(rt: HostRuntime) {
    for (usage, from, to, left) in [
        (32_000, 0, 124_999, 32_000),
        (32_000, 32_000, 125_000, 20_000),
        (32_000, 124_999, 125_000, 20_000),
        (32_000, 125_000, 249_999, 32_000),
        (32_000, 0, 250_000, 12_500),
        (32_000, 0, 375_000, 7812),
        (32_000, 375_000, 0, 32_000),
        (1, 0, 125_000, 0),
        (u32::MAX, 0, 125_000, 2_684_354_559),
        (u32::MAX, 0, 1 << 40, 0),
        (0, 0, u64::MAX, 0),
    ] {
        assert_eq!(rt; decay(usage, from, to), left);
    }
}

#[test]
fn usage_lowers_the_priority(rt: HostRuntime) {
    for (base, bucket, usage, n, expected) in [
        (31, Bucket::Fg, 32_000, 1, 29),
        (31, Bucket::Fg, 20_000, 1, 30),
        (31, Bucket::Fg, 16_000, 2, 29),
        (31, Bucket::Bg, 15_999, 1, 31),
        (31, Bucket::Df, 16_000, 8, 23),
        (31, Bucket::Df, 16_000, 9, 23),
        (127, Bucket::Ut, 16_000, 4096, 119),
        (127, Bucket::Ini, u32::MAX, 1, 0),
        (47, Bucket::Ui, u32::MAX, 4096, 47),
    ] {
        assert_eq!(rt; priority(base, bucket, usage, n), expected);
    }
}
