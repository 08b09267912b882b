//! Threads that leave.

ghost use Rattle.std.specs.Prelude.{◌≡◌, ◌<◌, ◌+◌, ◌^◌, ℕ, Some, false, length};
ghost use Rattle.flat_policy.specs.Policy.Clusters.{slots_without};
ghost use Rattle.flat_policy.specs.Policy.Queue.{Queued};
ghost use Rattle.link_arena.specs.Arena.{IsLive, value_at};
ghost use Rattle.windows.specs.Flags.{FillingFollows};
ghost use Rattle.windows.specs.Steps.{EntriesFollowSteps};
ghost use Rattle.windows.specs.WindowStates.{with_flag};
ghost use Rattle.thread_queue.specs.Item.{entry_of};
ghost use Rattle.cluster_queue.specs.Moves.{without_item};
ghost use Rattle.cluster_queue.specs.Queues.{AreTen, HoldsEntry, IsQueue, IsStored, TakesOut, after_leaving, flat_of, slots_of};

use super::Queue;
use super::entering::lane_of;
use crate::heaps::arena_laws;
use bucket_tables::Lane;
use sched_base::{Bucket, Thread};
use thread_queue::Item;
use windows::laws::{entries_follow_steps, filling_follows};

impl Queue {
    /// The entry in a slot leaves, picked or not, at a moment that is not before the last. Its clutch bucket loses its turn where it is
    /// empty then; otherwise it takes the next one if the entry was picked, or if the clutch bucket's priority changed.
    pub fn take(&mut self, slot: u32, picked: bool, now: u64) -> Thread
        requires queue { IsQueue self.old }
        requires live { IsLive self.old.arena slot }
        requires turn { self.old.next_turn < 2 ^ 62 }
        ensures thread { (e : Queued) → HoldsEntry self.old slot e → result ≡ e.facts }
        ensures taken { (e : Queued) → HoldsEntry self.old slot e → TakesOut self.old self.new e (after_leaving picked e now (flat_of self.old)) }
    {
        leave_laws();
        let item = self.remove_slot(slot, picked);
        let Item {
            thread,
            pri: _,
            number: _,
            arrival: _,
        } = item;
        let lane = lane_of(&thread.facts());
        self.last = now;
        if !self.heaps.has_lane(lane) {
            self.clear_lane(lane);
        }
        thread
    }

    /// The item in a slot leaves the heaps and the arena. Windows and the last moment stay.
    fn remove_slot(&mut self, slot: u32, picked: bool) -> Item
        requires queue { IsQueue self.old }
        requires live { IsLive self.old.arena slot }
        requires turn { self.old.next_turn < 2 ^ 62 }
        ensures item { value_at self.old.arena slot ≡ Some result }
        ensures flat { flat_of self.new ≡ without_item picked result (flat_of self.old) }
        ensures slots { slots_of self.new ≡ slots_without result.arrival (flat_of self.old).entries (slots_of self.old) }
        ensures spare { self.new.spare ≡ self.old.spare + 1 }
        ensures stored { IsStored self.new }
        ensures windows { self.new.windows ≡ self.old.windows }
        ensures groups { self.new.groups ≡ self.old.groups }
    {
        arena_laws();
        self.heaps
            .remove_uncounted(&mut self.arena, slot, picked, &mut self.next_turn);
        let item = self.arena.remove(slot);
        self.len -= 1;
        self.spare += 1;
        item
    }

    /// A lane is empty. The lanes of `Ui` have no windows.
    fn clear_lane(&mut self, lane: Lane)
        requires ten { AreTen self.old.windows.lanes }
        requires long { length self.old.windows.filled ≡ length self.old.windows.lanes }
        ensures { self.new ≡ record self.old {
          windows = record self.old.windows {
            filled = with_flag lane false self.old.windows.lanes self.old.windows.filled;
          };
        } }
    {
        match lane.bucket {
            Bucket::Ui => {}
            Bucket::Fg | Bucket::Ini | Bucket::Df | Bucket::Ut | Bucket::Bg => {
                self.windows.clear(lane)
            }
        }
    }
}

// How windows follow an entry that leaves, as the laws say it.
fn leave_laws()
    ensures entries { EntriesFollowSteps }
    ensures filling { FillingFollows }
{
    entries_follow_steps();
    filling_follows();
}
