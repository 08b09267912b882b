//! Worked runs, driven through the windows alone. A lane is cleared where its last thread was
//! taken, and filled again where one enters.

ghost use Rattle.std.specs.Prelude.{◌<◌, ◌^◌};

use super::*;
use bucket_tables::{quantum, warp, wcel};
use sched_base::Bucket;
use std::process::Abort;

/// The times of version 1 for a bucket.
fn times(bucket: Bucket) -> Times {
    Times {
        wcel: wcel(bucket) as u32,
        warp: warp(bucket) as u32,
        quantum: quantum(bucket) as u32,
    }
}

/// The times of version 1, with a warp of the foreground.
fn with_warp(foreground: u32) -> [Times; 6] {
    let mut fg = times(Bucket::Fg);
    fg.warp = foreground;
    [
        times(Bucket::Ui),
        fg,
        times(Bucket::Ini),
        times(Bucket::Df),
        times(Bucket::Ut),
        times(Bucket::Bg),
    ]
}

const FG: Lane = Lane {
    bucket: Bucket::Fg,
    bound: false,
};

const BG: Lane = Lane {
    bucket: Bucket::Bg,
    bound: false,
};

const UT: Lane = Lane {
    bucket: Bucket::Ut,
    bound: false,
};

const UT_BOUND: Lane = Lane {
    bucket: Bucket::Ut,
    bound: true,
};

/// The windows expire, and a lane is chosen.
fn select(rt: &impl Abort, windows: &mut Windows, now: u64) -> (Lane, Kind)
    requires { now < 2 ^ 40 }
{
    windows.expire(now);
    assert!(rt; !windows.is_empty());
    windows.choose(now)
}

#[test]
fn warp_and_starvation(rt: HostRuntime) {
    let mut windows = Windows::new(with_warp(8000));
    windows.fill(BG, 0);
    windows.fill(FG, 260_000);
    assert_eq!(rt; select(&rt, &mut windows, 260_000), (FG, Kind::Pass));
    windows.clear(FG);
    windows.fill(FG, 260_000);
    assert_eq!(rt; select(&rt, &mut windows, 267_999), (FG, Kind::Pass));
    windows.clear(FG);
    windows.fill(FG, 267_999);

    // the warp is spent, and the background has threads left after each of these
    assert_eq!(rt; select(&rt, &mut windows, 268_000), (BG, Kind::Starve));
    assert_eq!(rt; select(&rt, &mut windows, 269_999), (BG, Kind::Starve));

    // the starvation window ends, and the background is due at 520000
    assert_eq!(rt; select(&rt, &mut windows, 270_000), (FG, Kind::Natural));
    windows.clear(FG);
    assert_eq!(rt; select(&rt, &mut windows, 270_000), (BG, Kind::Natural));
}

#[test]
fn no_warp_and_a_warp(rt: HostRuntime) {
    for (foreground, expected) in [(0, (BG, Kind::Starve)), (8000, (FG, Kind::Pass))] {
        let mut windows = Windows::new(with_warp(foreground));
        windows.fill(BG, 0);
        windows.fill(FG, 260_000);
        assert_eq!(rt; select(&rt, &mut windows, 260_000), expected);
    }
}

#[test]
fn bound_before_unbound(rt: HostRuntime) {
    let mut windows = Windows::new(with_warp(8000));
    assert!(rt; windows.is_empty());
    windows.fill(UT, 0);
    windows.fill(UT_BOUND, 0);
    assert_eq!(rt; select(&rt, &mut windows, 0), (UT_BOUND, Kind::Natural));
    windows.clear(UT_BOUND);
    assert_eq!(rt; select(&rt, &mut windows, 0), (UT, Kind::Natural));
}

/// Times of another setup: 1000 for the background to be served within, and a starvation window of
/// 5000, where those of version 1 are 250000 and 2000.
#[test]
fn other_times(rt: HostRuntime) {
    let mut set = with_warp(0);
    set[5] = Times {
        wcel: 1000,
        warp: 0,
        quantum: 5000,
    };
    let mut windows = Windows::new(set);
    assert_eq!(rt; windows.times(BG), set[5]);
    windows.fill(BG, 0);
    windows.fill(FG, 1001);

    // the background is due at 1000, and stands in its window until 7000
    assert_eq!(rt; select(&rt, &mut windows, 2000), (BG, Kind::Starve));
    assert_eq!(rt; select(&rt, &mut windows, 6999), (BG, Kind::Starve));
    assert_eq!(rt; select(&rt, &mut windows, 7000), (FG, Kind::Natural));
    windows.clear(FG);

    // and it is due at 8000 again
    windows.fill(FG, 8001);
    assert_eq!(rt; select(&rt, &mut windows, 8001), (BG, Kind::Starve));
}
