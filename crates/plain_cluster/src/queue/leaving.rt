//! Threads that leave.

ghost use Rattle.std.specs.Prelude.{◌≡◌, ◌<◌, ◌^◌, Some, false, length};
ghost use Rattle.flat_policy.specs.Policy.Moves.{removed, removed_by_selection, without_entry};
ghost use Rattle.flat_policy.specs.Policy.Queue.{Queued};
ghost use Rattle.plain_cluster.specs.Entries.{entry_at};
ghost use Rattle.plain_cluster.specs.Queues.{AreTen, IsQueue, TakesOut, flat_of};
ghost use Rattle.windows.specs.WindowStates.{with_flag};

use super::Queue;
use super::scanning::lane_of;
use bucket_tables::Lane;
use flat_policy::laws::entries_leave_by_place;
use sched_base::{Bucket, Thread};
use windows::laws::filling_follows;

impl Queue {
    /// The entry at a place leaves, otherwise than by a selection, at a moment that is not before
    /// the last. Its clutch bucket loses its turn where it is empty then, and takes the next one
    /// where its priority changed.
    pub fn remove(&mut self, place: usize, now: u64) -> Thread
        requires queue { IsQueue self.old.groups self.old }
        requires there { place < length self.old.rows.rows }
        requires turn { self.old.units.next_turn < 2 ^ 62 }
        ensures thread { (e : Queued) → entry_at self.old.rows.rows (Some place) ≡ Some e → result ≡ e.facts }
        ensures taken { (e : Queued) → entry_at self.old.rows.rows (Some place) ≡ Some e
            → TakesOut self.old self.new e (removed e now (flat_of self.old)) }
    {
        let facts = self.rows.as_slice()[place].facts();
        let (group, bucket) = (facts.group, facts.bucket);
        if facts.bound.is_some() {
            return self.take(place, now);
        }
        let before = self.clutch_priority(group, bucket);
        let thread = self.take(place, now);
        if !self.has_clutch(group, bucket) {
            self.units.lose_turn(group, bucket);
        } else if before != self.clutch_priority(group, bucket) {
            self.units.take_turn(group, bucket);
        }
        thread
    }

    /// The entry at a place is selected, at a moment that is not before the last. Its clutch bucket
    /// takes the next turn, and none where it is empty then.
    pub fn take_selected(&mut self, place: usize, now: u64) -> Thread
        requires queue { IsQueue self.old.groups self.old }
        requires there { place < length self.old.rows.rows }
        requires turn { self.old.units.next_turn < 2 ^ 62 }
        ensures thread { (e : Queued) → entry_at self.old.rows.rows (Some place) ≡ Some e → result ≡ e.facts }
        ensures taken { (e : Queued) → entry_at self.old.rows.rows (Some place) ≡ Some e
            → TakesOut self.old self.new e (removed_by_selection e now (flat_of self.old)) }
    {
        let facts = self.rows.as_slice()[place].facts();
        let (group, bucket) = (facts.group, facts.bucket);
        let thread = self.take(place, now);
        if facts.bound.is_none() {
            if self.has_clutch(group, bucket) {
                self.units.take_turn(group, bucket);
            } else {
                self.units.lose_turn(group, bucket);
            }
        }
        thread
    }

    /// The entry at a place leaves, and its lane is empty where it was the last. The turns stay.
    fn take(&mut self, place: usize, now: u64) -> Thread
        requires queue { IsQueue self.old.groups self.old }
        requires there { place < length self.old.rows.rows }
        ensures thread { (e : Queued) → entry_at self.old.rows.rows (Some place) ≡ Some e → result ≡ e.facts }
        ensures taken { (e : Queued) → entry_at self.old.rows.rows (Some place) ≡ Some e
            → TakesOut self.old self.new e (without_entry e now (flat_of self.old)) }
        ensures units { self.new.units ≡ self.old.units }
    {
        entries_leave_by_place();
        filling_follows();
        let lane = lane_of(&self.rows.as_slice()[place].facts());
        let thread = self.rows.remove(place);
        self.last = now;
        if !self.has_lane(lane) {
            self.clear_lane(lane);
        }
        thread
    }

    /// A lane is empty. The lanes of `Ui` have no windows.
    fn clear_lane(&mut self, lane: Lane)
        requires ten { AreTen self.old.windows.lanes }
        requires long { length self.old.windows.filled ≡ length self.old.windows.lanes }
        ensures { self.new ≡ record self.old {
          windows = record self.old.windows {
            filled = with_flag lane false self.old.windows.lanes self.old.windows.filled;
          };
        } }
    {
        match lane.bucket {
            Bucket::Ui => {}
            Bucket::Fg | Bucket::Ini | Bucket::Df | Bucket::Ut | Bucket::Bg => {
                self.windows.clear(lane)
            }
        }
    }
}
