//! Pricing every entry anew.

ghost use Rattle.std.specs.Prelude.{◌≡◌, ◌<◌, ◌^◌};
ghost use Rattle.flat_policy.specs.Policy.Refresh.{refreshed, repriced_count};
ghost use Rattle.windows.specs.Steps.{WindowsFollowSteps};
ghost use Rattle.cluster_queue.specs.Queues.{IsQueue, StaysWith, flat_of};

use super::Queue;
use windows::laws::windows_follow_steps;

impl Queue {
    /// Prices every entry anew, at a moment that is not before the last, and tells how many
    /// priorities changed. A clutch bucket whose priority changed takes the next turn, the highest
    /// bucket first, and in one bucket in the order of groups.
    pub fn refresh(&mut self, now: u64) -> u32
        requires queue { IsQueue self.old }
        requires turn { self.old.next_turn < 2 ^ 62 }
        ensures changed { result ≡ repriced_count (flat_of self.old) now }
        ensures stays { StaysWith self.old self.new (refreshed self.old.groups (flat_of self.old) now) }
    {
        windows_follow_steps();
        let changed = self
            .heaps
            .refresh_uncounted(&mut self.arena, now, &mut self.next_turn);
        self.last = now;
        changed
    }
}
