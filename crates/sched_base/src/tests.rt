//! Worked examples of the calls.

use super::*;

#[test]
fn buckets_by_index(rt: HostRuntime) {
    for i in 0u8..6 {
        assert_eq!(rt; Bucket::from_index(i).map(|bucket| bucket.index()), Some(i));
    }
    for i in [6, 7, 255] {
        assert_eq!(rt; Bucket::from_index(i), None);
    }
}

#[test]
fn a_thread_from_make_to_end(rt: HostRuntime) {
    let mut thread = Thread::new(7, 1, Bucket::Fg, 31, Some(2), 2, 500);
    thread.charge(2500, 400);
    thread.charge(1, 999);
    thread.rest(70);
    let facts = thread.facts();
    assert_eq!(rt;
        (facts.name, facts.usage, facts.pending_ran),
        (7, 2501, 2501)
    );
    assert_eq!(rt;
        (facts.seen, facts.pending_blocked, facts.work),
        (500, 70, 1000)
    );
    thread.rest(u64::MAX);
    thread.charge(u32::MAX, 1000);
    let facts = thread.facts();
    assert_eq!(rt;
        (facts.usage, facts.pending_blocked, facts.work),
        (u32::MAX, u32::MAX, 4294968295)
    );
    thread.settle(9, 600);
    let facts = thread.into_facts();
    assert_eq!(rt;
        (
            facts.usage,
            facts.seen,
            facts.pending_ran,
            facts.pending_blocked
        ),
        (9, 600, 0, 0)
    );
    assert_eq!(rt;
        (
            facts.group,
            facts.bucket,
            facts.base,
            facts.bound,
            facts.prefer
        ),
        (1, Bucket::Fg, 31, Some(2), 2)
    );
}
