//! Which thread is offered to another cluster.

ghost use Rattle.std.specs.Option.{ForSome};
ghost use Rattle.std.specs.Prelude.{◌≡◌, ◌<◌, ◌^◌, ◌&&◌, MatchOption, None, Some, false, filter, fold, length, true};
ghost use Rattle.sched_base.specs.declared.buckets.Bucket.{Bucket};
ghost use Rattle.flat_policy.specs.Laws.Choice.{better};
ghost use Rattle.flat_policy.specs.Laws.Offers.{IsLowestMasked};
ghost use Rattle.flat_policy.specs.Policy.ClusterSteps.{facts_of, flat_after_offer};
ghost use Rattle.flat_policy.specs.Policy.Offer.{foreign_before, offered, offered_foreign, offered_masked, prefers};
ghost use Rattle.flat_policy.specs.Policy.Queue.{Queued, has_entries, lane};
ghost use Rattle.flat_policy.specs.Policy.Setup.{mask_has};
ghost use Rattle.plain_cluster.specs.Entries.{entries_of, entry_at};
ghost use Rattle.plain_cluster.specs.Queues.{IsQueue, Leaves, flat_of};

use super::Queue;
use crate::row::Row;
use bucket_tables::{Lane, each_bucket};
use flat_policy::laws::{choice_of_entries_is_one, masked_offers_by_lane, offers_are_one};
use sched_base::{Bucket, Thread};

/// Whether an unbound thread prefers a cluster.
fn prefers(row: &Row, to: u8) -> bool
    ensures { result ≡ prefers to row.now.entry.facts }
{
    let facts = row.facts();
    facts.bound.is_none() && facts.prefer == to
}

/// Whether an entry goes before another among those that prefer the other cluster.
fn foreign_before(row: &Row, other: &Row) -> bool
    ensures { result ≡ foreign_before row.now.entry other.now.entry }
{
    let (bucket, against) = (row.facts().bucket.index(), other.facts().bucket.index());
    bucket < against || bucket == against && row.precedes(other)
}

/// Whether a mask has the bit of a bucket.
fn is_in_mask(mask: u8, bucket: Bucket) -> bool
    ensures { result ≡ mask_has mask bucket }
{
    mask >> bucket.index() & 1 == 1
}

impl Queue {
    /// The thread that is offered to another cluster leaves, at a moment that is not before the
    /// last.
    pub fn offer(&mut self, to: u8, rebalance: bool, mask: u8, now: u64) -> Option<Thread>
        requires queue { IsQueue self.old.groups self.old }
        requires turn { self.old.units.next_turn < 2 ^ 62 }
        ensures offered { result ≡ facts_of (offered to rebalance mask (flat_of self.old)) }
        ensures left { Leaves self.old self.new (offered to rebalance mask (flat_of self.old))
            (flat_after_offer now (flat_of self.old) (offered to rebalance mask (flat_of self.old))) }
    {
        match self.offered(to, rebalance, mask) {
            Some(place) => Some(self.remove(place, now)),
            None => {
                self.last = now;
                None
            }
        }
    }

    /// Where the entry stands that is offered.
    fn offered(&self, to: u8, rebalance: bool, mask: u8) -> Option<usize>
        requires { IsQueue self.now.groups self.now }
        ensures offered { entry_at self.now.rows.rows result ≡ offered to rebalance mask (flat_of self.now) }
        ensures there { ForSome result (λ place. place < length self.now.rows.rows) }
    {
        if rebalance {
            let foreign = self.first_foreign(to);
            if foreign.is_some() {
                return foreign;
            }
        }
        self.first_masked(mask)
    }

    /// Where the entry stands that is offered of those that prefer the other cluster.
    fn first_foreign(&self, to: u8) -> Option<usize>
        requires { IsQueue self.now.groups self.now }
        ensures first { entry_at self.now.rows.rows result ≡ offered_foreign to (flat_of self.now) }
        ensures there { ForSome result (λ place. place < length self.now.rows.rows) }
    {
        choice_of_entries_is_one();
        offers_are_one();
        best_foreign(self.rows.as_slice(), to)
    }

    /// Where the entry stands that is offered of those in the mask.
    fn first_masked(&self, mask: u8) -> Option<usize>
        requires { IsQueue self.now.groups self.now }
        ensures first { entry_at self.now.rows.rows result ≡ offered_masked mask (flat_of self.now) }
        ensures there { ForSome result (λ place. place < length self.now.rows.rows) }
    {
        masked_offers_by_lane();
        match self.lowest_masked(mask) {
            Some(bucket) => self.first_of(Lane {
                bucket,
                bound: false,
            }),
            None => None,
        }
    }

    /// The highest bucket of a mask that has unbound entries.
    fn lowest_masked(&self, mask: u8) -> Option<Bucket>
        ensures { MatchOption result
            ((b : Bucket) → mask_has mask b ≡ true → has_entries (flat_of self.now) (lane b false) ≡ false)
            (IsLowestMasked mask (flat_of self.now)) }
    {
        each_bucket!(bucket => {
            if self.has_masked(mask, bucket) {
                return Some(bucket);
            }
        });
        None
    }

    /// Whether a bucket is in a mask and has unbound entries.
    fn has_masked(&self, mask: u8, bucket: Bucket) -> bool
        ensures { result ≡ (mask_has mask bucket && has_entries (flat_of self.now) (lane bucket false)) }
    {
        is_in_mask(mask, bucket)
            && self.has_lane(Lane {
                bucket,
                bound: false,
            })
    }
}

/// The place of the better of the best entry so far and one more.
fn better_foreign(rows: &[Row], first: Option<usize>, place: usize) -> Option<usize>
    requires place { place < length rows.now }
    requires first { ForSome first (λ best. best < length rows.now) }
    ensures better { (e : Queued) → entry_at rows.now (Some place) ≡ Some e
        → entry_at rows.now result ≡ better foreign_before (entry_at rows.now first) e }
    ensures there { ForSome result (λ best. best < length rows.now) }
{
    match first {
        Some(best) if !foreign_before(&rows[place], &rows[best]) => first,
        _ => Some(place),
    }
}

/// The place of the best entry of those that prefer the other cluster.
fn best_foreign(rows: &[Row], to: u8) -> Option<usize>
    ensures best { entry_at rows.now result
        ≡ fold (better foreign_before) None (filter (λ e. prefers to e.facts) (entries_of rows.now)) }
    ensures there { ForSome result (λ place. place < length rows.now) }
{
    let mut first = None;
    for (place, row) in rows.iter().enumerate() {
        if prefers(row, to) {
            first = better_foreign(rows, first, place);
        }
    }
    first
}
