//! Which thread is offered to another cluster.

ghost use Rattle.std.specs.Prelude.{◌≡◌, ◌<◌, ◌^◌, ◌&&◌, IfSome, MatchOption, false, true};
ghost use Rattle.sched_base.specs.declared.buckets.Bucket.{Bucket};
ghost use Rattle.flat_policy.specs.Laws.Offers.{IsLowestMasked};
ghost use Rattle.flat_policy.specs.Policy.ClusterSteps.{facts_of, flat_after_offer};
ghost use Rattle.flat_policy.specs.Policy.Offer.{offered, offered_masked};
ghost use Rattle.flat_policy.specs.Policy.Queue.{has_entries, lane};
ghost use Rattle.flat_policy.specs.Policy.Setup.{mask_has};
ghost use Rattle.link_arena.specs.Arena.{IsLive};
ghost use Rattle.cluster_queue.specs.Moves.{entry_in};
ghost use Rattle.cluster_queue.specs.Queues.{IsQueue, Leaves, flat_of};

use super::Queue;
use bucket_tables::{Lane, each_bucket};
use flat_policy::laws::masked_offers_by_lane;
use sched_base::limits::MOST_CLUSTERS;
use sched_base::{Bucket, Thread};

/// Whether a mask has the bit of a bucket.
fn is_in_mask(mask: u8, bucket: Bucket) -> bool
    ensures { result ≡ mask_has mask bucket }
{
    mask >> bucket.index() & 1 == 1
}

impl Queue {
    /// The thread that is offered to another cluster leaves, at a moment that is not before the
    /// last.
    pub fn offer(&mut self, to: u8, rebalance: bool, mask: u8, now: u64) -> Option<Thread>
        requires queue { IsQueue self.old }
        requires cluster { to < MOST_CLUSTERS }
        requires turn { self.old.next_turn < 2 ^ 62 }
        ensures offered { result ≡ facts_of (offered to rebalance mask (flat_of self.old)) }
        ensures left { Leaves self.old self.new (offered to rebalance mask (flat_of self.old))
            (flat_after_offer now (flat_of self.old) (offered to rebalance mask (flat_of self.old))) }
    {
        match self.offered(to, rebalance, mask) {
            Some(slot) => Some(self.take(slot, false, now)),
            None => {
                self.touch(now);
                None
            }
        }
    }

    /// The slot of the entry that is offered.
    fn offered(&self, to: u8, rebalance: bool, mask: u8) -> Option<u32>
        requires queue { IsQueue self.now }
        requires cluster { to < MOST_CLUSTERS }
        ensures offered { entry_in self.now.arena result ≡ offered to rebalance mask (flat_of self.now) }
        ensures live { IfSome result (λ slot. IsLive self.now.arena slot) }
    {
        if rebalance {
            let foreign = self.heaps.first_foreign(&self.arena, to);
            if foreign.is_some() {
                return foreign;
            }
        }
        self.first_masked(mask)
    }

    /// The slot of the entry that is offered of those in the mask.
    fn first_masked(&self, mask: u8) -> Option<u32>
        requires { IsQueue self.now }
        ensures first { entry_in self.now.arena result ≡ offered_masked mask (flat_of self.now) }
        ensures live { IfSome result (λ slot. IsLive self.now.arena slot) }
    {
        masked_offers_by_lane();
        match self.lowest_masked(mask) {
            Some(bucket) => self.heaps.first_of(
                &self.arena,
                Lane {
                    bucket,
                    bound: false,
                },
            ),
            None => None,
        }
    }

    /// The highest bucket of a mask that has unbound entries.
    fn lowest_masked(&self, mask: u8) -> Option<Bucket>
        requires { IsQueue self.now }
        ensures { MatchOption result
            ((b : Bucket) → mask_has mask b ≡ true → has_entries (flat_of self.now) (lane b false) ≡ false)
            (IsLowestMasked mask (flat_of self.now)) }
    {
        each_bucket!(bucket => {
            if self.has_masked(mask, bucket) {
                return Some(bucket);
            }
        });
        None
    }

    /// Whether a bucket is in a mask and has unbound entries.
    fn has_masked(&self, mask: u8, bucket: Bucket) -> bool
        requires { IsQueue self.now }
        ensures { result ≡ (mask_has mask bucket && has_entries (flat_of self.now) (lane bucket false)) }
    {
        is_in_mask(mask, bucket)
            && self.heaps.has_lane(Lane {
                bucket,
                bound: false,
            })
    }
}
