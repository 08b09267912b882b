//! Which lane is chosen, and which of its threads goes first.

ghost use Rattle.std.specs.Prelude.{◌≡◌, ◌<◌, ◌^◌};
ghost use Rattle.bound_buckets.specs.Tops.{top_of, tops_of};
ghost use Rattle.flat_policy.specs.Policy.ClusterSteps.{facts_of};
ghost use Rattle.flat_policy.specs.Policy.Moves.{pick, selected};
ghost use Rattle.flat_policy.specs.Policy.Queue.{lane};
ghost use Rattle.cluster_queue.specs.Queues.{IsChosen, IsQueue, Leaves, flat_of};

use super::Queue;
use bound_buckets::{Tops, above_ui};
use bucket_tables::Lane;
use flat_policy::laws::{chooses_a_filled_lane, pick_is_one, pick_stands_in_lane};
use sched_base::limits::MOMENT_LIMIT;
use sched_base::{Bucket, Thread};
use windows::laws::choices_agree;

impl Queue {
    /// The pick leaves, at a moment that is not before the last. Windows expire either way.
    pub fn select(&mut self, now: u64) -> Option<Thread>
        requires queue { IsQueue self.old }
        requires moment { now < MOMENT_LIMIT }
        requires turn { self.old.next_turn < 2 ^ 62 }
        ensures picked { result ≡ facts_of (pick self.old.windows.times now (flat_of self.old)) }
        ensures left { Leaves self.old self.new (pick self.old.windows.times now (flat_of self.old))
            (selected self.old.windows.times now (flat_of self.old)) }
    {
        pick_is_one();
        pick_stands_in_lane();
        self.windows.expire(now);
        if self.len == 0 {
            self.last = now;
            return None;
        }
        let lane = self.choose(now);
        let slot = self.heaps.first_of(&self.arena, lane).unwrap();
        Some(self.take(slot, true, now))
    }

    /// The lane that is chosen, once windows have expired. Its windows change with it.
    fn choose(&mut self, now: u64) -> Lane
        requires queue { IsQueue self.old }
        requires some { 0 < self.old.len }
        requires moment { now < MOMENT_LIMIT }
        ensures { IsChosen self.old self.new now result }
    {
        chooses_a_filled_lane();
        choices_agree();
        let tops = self.tops();
        match above_ui(&tops) {
            Some(bound) => Lane {
                bucket: Bucket::Ui,
                bound,
            },
            None => {
                let (lane, _) = self.windows.choose(now);
                lane
            }
        }
    }

    /// The greatest unit priorities of the lanes of the user interface and the foreground.
    fn tops(&self) -> Tops
        requires { IsQueue self.now }
        ensures { result ≡ tops_of (flat_of self.now) }
    {
        Tops {
            ui: self.top(Bucket::Ui, false),
            ui_bound: self.top(Bucket::Ui, true),
            fg: self.top(Bucket::Fg, false),
            fg_bound: self.top(Bucket::Fg, true),
        }
    }

    /// The greatest unit priority of a lane; `None` where it has no entries.
    fn top(&self, bucket: Bucket, bound: bool) -> Option<u8>
        requires { IsQueue self.now }
        ensures { result ≡ top_of (flat_of self.now) (lane bucket bound) }
    {
        self.heaps.top(&self.arena, Lane { bucket, bound })
    }
}
