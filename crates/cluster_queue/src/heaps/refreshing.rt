//! Entries priced anew.

ghost use Rattle.std.specs.Prelude.{◌≡◌, ◌<◌, ◌≤◌, ◌^◌, vec_capacity};
ghost use Rattle.sched_base.specs.declared.Bucket.TheVariants.{Fg};
ghost use Rattle.flat_policy.specs.Laws.Refreshing.{RefreshesByBucket};
ghost use Rattle.thread_queue.specs.Laws.{StaysWhereOtherSetChanges};
ghost use Rattle.clutch_bucket.specs.Laws.{LanesStay};
ghost use Rattle.cluster_queue.specs.PricingAll.{PricesBuckets};
ghost use Rattle.cluster_queue.specs.Refreshing.{CanPrice, CanRefresh, RefreshesHeaps};

use super::Heaps;
use clutch_bucket::laws as lanes;
use flat_policy::laws as policy;
use link_arena::Arena;
use pairing_heap::Steps;
use sched_base::Bucket;
use std::sync::ledger::Ledger;
use thread_queue::{Item, laws as queues};

impl Heaps {
    /// Prices every entry anew at the moment `now` (microseconds), but for those of the user interface, and tells how many priorities
    /// changed. Bucket by bucket, and in order of groups, each clutch bucket whose priority changed takes the turn `turns`, which
    /// then rises by one.
    pub fn refresh<L: Ledger>(
        &mut self,
        arena: &mut Arena<Item>,
        now: u64,
        turns: &mut u64,
        steps: &mut Steps<L>,
    ) -> u32
        requires can { CanRefresh arena.old self.old }
        requires turn { turns.old < 2 ^ 62 }
        ensures refreshes { RefreshesHeaps arena.old arena.new self.old self.new now turns.old turns.new result }
        ensures ticks { steps.old ≤ steps.new }
    {
        refresh_laws();
        // The keys of heaps of foreign threads change with the priorities, so these are made anew.
        self.foreign.clear(arena, steps);
        let changed = self.refresh_buckets(arena, now, turns, steps);
        self.fill_foreign(arena, steps);
        changed
    }

    // Prices the entries of every bucket but the user interface's anew, whose clutch buckets take their turns. Tells how many
    // priorities changed.
    fn refresh_buckets<L: Ledger>(
        &mut self,
        arena: &mut Arena<Item>,
        now: u64,
        turns: &mut u64,
        steps: &mut Steps<L>,
    ) -> u32
        requires can { CanPrice arena.old self.old Fg now }
        requires turn { turns.old < 2 ^ 62 }
        ensures prices { PricesBuckets arena.old arena.new self.old self.new now turns.old turns.new result }
        ensures room { vec_capacity self.new.slots ≡ vec_capacity self.old.slots }
        ensures ticks { steps.old ≤ steps.new }
    {
        let fg = self.refresh_bucket(arena, Bucket::Fg, now, turns, steps);
        let ini = self.refresh_bucket(arena, Bucket::Ini, now, turns, steps);
        let df = self.refresh_bucket(arena, Bucket::Df, now, turns, steps);
        let ut = self.refresh_bucket(arena, Bucket::Ut, now, turns, steps);
        let bg = self.refresh_bucket(arena, Bucket::Bg, now, turns, steps);
        fg + ini + df + ut + bg
    }
}

// What stays where the heaps of foreign threads are cleared, and how a refresh goes, as the laws say it.
fn refresh_laws()
    ensures by_bucket { RefreshesByBucket }
    ensures queues { StaysWhereOtherSetChanges }
    ensures stay { LanesStay }
{
    policy::refreshes_by_bucket();
    queues::stays_where_other_set_changes();
    lanes::lanes_stay();
}
