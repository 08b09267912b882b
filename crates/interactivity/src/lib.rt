//! What the threads of a group and bucket used and for how long they were blocked, and the score
//! that follows from it.
//!
//! Spans are added, and give a score (a caller in the tests):
//!
//! ```
//! let mut stats = Stats::new();
//! for (ran, blocked) in spans {
//!     stats.add(*ran, *blocked);
//! }
//! // after 3000 run and 10000 blocked, `stats.score(Bucket::Fg)` is 13
//! ```
//!
//! All times are whole microseconds. No call here takes memory or refuses.
#![tactic(auto)]

ghost use Rattle.std.specs.Prelude.{◌≡◌, ◌≤◌, ◌<◌, ◌^◌};
ghost use Rattle.flat_policy.specs.Policy.Usage.{interactivity, score, with_spans};

use sched_base::Bucket;
use std::marker::Model;

#[cfg(test)]
mod tests;

/// The most microseconds that are kept undivided.
const MOST: u64 = 500_000;

/// The time that threads used, and the time that they were blocked, in microseconds, each below
/// 2^34. Contracts see both numbers.
#[derive(Clone, Copy, Debug, PartialEq, Eq)]
pub struct Stats {
    used: u64,
    blocked: u64,
}

impl Model for Stats {
    ghost use Rattle.std.specs.Prelude.{◌<◌, ◌^◌};
    ghost use Rattle.flat_policy.specs.Policy.Usage.{Spans};

    ghost Value = { Spans };

    ghost view = { λ stats. record { used = stats.used; blocked = stats.blocked } };

    ghost invariant = { λ stats. (stats.used < 2 ^ 34) × (stats.blocked < 2 ^ 34) };

    ghost inverse = { λ spans. record { used = spans.used; blocked = spans.blocked } };
}

impl Stats {
    /// Nothing used, and nothing blocked.
    pub fn new() -> Stats
        ensures { result ≡ record { used = 0; blocked = 0 } }
    {
        Stats {
            used: 0,
            blocked: 0,
        }
    }

    /// Adds a run span and a blocked span, in microseconds. Where both numbers then come to more
    /// than 500000 together, each is divided by 10, once.
    pub fn add(&mut self, ran: u32, blocked: u32)
        ensures added { self.new ≡ with_spans self.old ran blocked }
        ensures used { self.new.used < 2 ^ 34 }
        ensures blocked { self.new.blocked < 2 ^ 34 }
    {
        let used = self.used + ran as u64;
        let blocked = self.blocked + blocked as u64;
        *self = if used + blocked > MOST {
            Stats {
                used: used / 10,
                blocked: blocked / 10,
            }
        } else {
            Stats { used, blocked }
        };
    }

    /// The score of a bucket, 0 to 16: 16 for `Ui`, and otherwise the higher the more the threads
    /// wait.
    pub fn score(&self, bucket: Bucket) -> u8
        ensures score { result ≡ score self.now.used self.now.blocked bucket }
        ensures bound { result ≤ 16 }
        ensures used { self.now.used < 2 ^ 34 }
        ensures blocked { self.now.blocked < 2 ^ 34 }
    {
        match bucket {
            Bucket::Ui => 16,
            Bucket::Fg | Bucket::Ini | Bucket::Df | Bucket::Ut | Bucket::Bg => {
                waiting(self.used, self.blocked)
            }
        }
    }
}

/// The score of a bucket other than `Ui`, by the time used and the time blocked.
fn waiting(used: u64, blocked: u64) -> u8
    requires used { used < 2 ^ 34 }
    requires blocked { blocked < 2 ^ 34 }
    ensures score { result ≡ interactivity used blocked }
    ensures bound { result ≤ 16 }
{
    if used == 0 && blocked == 0 {
        16
    } else if used < blocked {
        (8 + 8 * (blocked - used) / blocked) as u8
    } else {
        (8 * blocked / used) as u8
    }
}
