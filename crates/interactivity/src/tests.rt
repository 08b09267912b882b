//! Worked examples of the calls.

use super::*;

/// Stats to which these spans were added, in their order.
fn stats_of(spans: &[(u32, u32)]) -> Stats {
    let mut stats = Stats::new();
    for (ran, blocked) in spans {
        stats.add(*ran, *blocked);
    }
    stats
}

#[test]
fn scores(rt: HostRuntime) {
    assert_eq!(rt; Stats::new().score(Bucket::Bg), 16);
    for (ran, blocked, score) in [
        (3000, 10_000, 13),
        (10_000, 3000, 2),
        (1, 0, 0),
        (0, 1, 16),
        (7, 7, 8),
        (7, 6, 6),
        (u32::MAX, u32::MAX, 8),
    ] {
        let stats = stats_of(&[(ran, blocked)]);
        assert_eq!(rt; stats.score(Bucket::Fg), score);
        assert_eq!(rt; stats.score(Bucket::Ui), 16);
    }
}

#[test]
fn what_is_old_counts_less(rt: HostRuntime) {
    // At 500000 in all nothing is divided, and one more divides both by ten, once.
    let kept = stats_of(&[(100_000, 400_000)]);
    let divided = stats_of(&[(100_000, 400_000), (1, 0)]);
    assert_eq!(rt; (kept.used, kept.blocked), (100_000, 400_000));
    assert_eq!(rt; (divided.used, divided.blocked), (10_000, 40_000));
    let most = stats_of(&[(u32::MAX, 0), (u32::MAX, 0)]);
    assert_eq!(rt; (most.used, most.blocked), (472_446_402, 0));
}
