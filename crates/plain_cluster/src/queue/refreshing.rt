//! Pricing every entry anew.

ghost use Rattle.std.specs.Prelude.{◌≡◌, ◌≤◌, ◌<◌, ◌+◌, ◌*◌, ◌^◌, length, ℕ};
ghost use Rattle.flat_policy.specs.Laws.Refreshing.{with_turns_of};
ghost use Rattle.flat_policy.specs.Policy.Queue.{Flat};
ghost use Rattle.flat_policy.specs.Policy.Refresh.{refreshed, repriced_count};
ghost use Rattle.plain_cluster.specs.Entries.{slots_of};
ghost use Rattle.plain_cluster.specs.Queues.{FlagsFollow, IsQueue, flat_of};
ghost use Rattle.plain_cluster.specs.Repricing.{CountsAre, HaveGroups, TopsAre};

use super::Queue;
use crate::counts::Counts;
use crate::scans::{ClutchTable, clutch_tops};
use flat_policy::laws::refreshes_by_bucket;
use sched_base::Bucket;
use sched_base::limits::MOST_GROUPS;

impl Queue {
    /// Prices every entry anew, at a moment that is not before the last, and tells how many
    /// priorities changed. A clutch bucket whose priority changed takes the next turn, the highest
    /// bucket first, and in one bucket in the order of groups.
    pub fn refresh(&mut self, now: u64) -> u32
        requires queue { IsQueue self.old.groups self.old }
        requires groups { self.old.groups ≤ MOST_GROUPS }
        requires turn { self.old.units.next_turn < 2 ^ 62 }
        ensures changed { result ≡ repriced_count (flat_of self.old) now }
        ensures flat { flat_of self.new ≡ refreshed self.old.groups (flat_of self.old) now }
        ensures slots { slots_of self.new.rows.rows ≡ slots_of self.old.rows.rows }
        ensures spare { self.new.rows.spare ≡ self.old.rows.spare }
        ensures flags { FlagsFollow self.new }
        ensures times { self.new.windows.times ≡ self.old.windows.times }
        ensures groups { self.new.groups ≡ self.old.groups }
    {
        refreshes_by_bucket();
        let counts = self.counts();
        let before = self.clutch_tops();
        let changed = self.rows.reprice(&counts, now);
        self.last = now;
        let after = self.clutch_tops();
        self.renew_turns(&before, &after, Bucket::Fg);
        self.renew_turns(&before, &after, Bucket::Ini);
        self.renew_turns(&before, &after, Bucket::Df);
        self.renew_turns(&before, &after, Bucket::Ut);
        self.renew_turns(&before, &after, Bucket::Bg);
        changed
    }

    /// How many entries each unit has.
    fn counts(&self) -> Counts
        requires groups { HaveGroups (flat_of self.now).entries }
        requires few { length self.now.rows.rows < 2 ^ 32 }
        ensures { CountsAre (flat_of self.now) result }
    {
        Counts::of_rows(self.rows.as_slice())
    }

    /// The greatest priority of each clutch bucket, by group and bucket index.
    fn clutch_tops(&self) -> ClutchTable
        requires { HaveGroups (flat_of self.now).entries }
        ensures { TopsAre (flat_of self.now) result }
    {
        clutch_tops(self.rows.as_slice())
    }

    /// The clutch buckets of a bucket whose greatest priority is not the one before take the next
    /// turns, in the order of groups. One that has no entries has neither before nor after a
    /// greatest priority, so it takes none.
    fn renew_turns(&mut self, before: &ClutchTable, after: &ClutchTable, bucket: Bucket)
        requires groups { self.old.groups ≤ MOST_GROUPS }
        requires places { length self.old.units.spans ≡ self.old.groups * 6 }
        requires turn { self.old.units.next_turn < 2 ^ 62 + 320 }
        ensures queue { self.new ≡ record self.old { units = self.new.units } }
        ensures spans { self.new.units.spans ≡ self.old.units.spans }
        ensures turn { self.new.units.next_turn ≤ self.old.units.next_turn + 64 }
        ensures turns { (groups : ℕ) (s : Flat) → self.old.groups ≡ groups → TopsAre s before.now → TopsAre (flat_of self.old) after.now
            → s.spans ≡ self.old.units.spans → flat_of self.new ≡ with_turns_of groups s (flat_of self.old) bucket }
    {
        for group in 0..self.groups {
            let was = before.get(group as usize, bucket.index() as usize);
            let top = after.get(group as usize, bucket.index() as usize);
            if was != top {
                self.units.take_turn(group, bucket);
            }
        }
    }
}
