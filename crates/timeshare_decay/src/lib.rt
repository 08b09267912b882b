//! How a thread's usage decays, and how it lowers the thread's priority.
//!
//! Usage decays, and lowers a priority (callers in the tests):
//!
//! ```
//! assert_eq!(rt; decay(usage, from, to), left); // such as 32000 from 32000 to 125000, which leaves 20000
//! assert_eq!(rt; priority(base, bucket, usage, n), expected); // and 29 of a base of 31 with a usage of 32000
//! ```
//!
//! All times are whole microseconds. No call here takes memory or refuses.
#![tactic(auto)]

ghost use Rattle.std.specs.Prelude.{◌≡◌, ◌≤◌, ◌<◌, ◌+◌, ◌-◌, ◌*◌, ◌/◌};
ghost use Rattle.flat_policy.specs.Policy.Usage.{decay, priority, ticks, usage_step};

use sched_base::Bucket;
use sched_base::limits::{MOST_BASE, TICK};

#[cfg(test)]
mod tests;

/// What is left at the moment `to` of a usage at the moment `from`, all in microseconds: for each
/// tick between the moments five eighths of it, rounded down. Between moments in the other order
/// nothing decays.
#[tactic(auto, using(crate::proofs::Decayed::usage_left))]
pub fn decay(usage: u32, from: u64, to: u64) -> u32
    ensures decay { result ≡ decay usage from to }
    ensures bound { result ≤ usage }
{
    let mut left = usage;
    for _tick in 0..ticks_between(from, to) {
        // What is used up stays so, however many ticks there are.
        if left == 0 {
            return 0;
        }
        left = eaten(left);
    }
    left
}

/// The ticks between two moments.
fn ticks_between(from: u64, to: u64) -> u64
    ensures { result ≡ ticks from to }
{
    (to / TICK).saturating_sub(from / TICK)
}

/// The usage after one more tick.
fn eaten(usage: u32) -> u32
    ensures eaten { result ≡ usage * 5 / 8 }
    ensures bound { result ≤ usage }
{
    (usage as u64 * 5 / 8) as u32
}

/// The priority of a thread of a bucket, with a base and a usage in microseconds, among `n`
/// entries of its unit: the base, which usage lowers to no less than 0 except for `Ui`.
pub fn priority(base: u8, bucket: Bucket, usage: u32, n: u32) -> u8
    requires base { base ≤ MOST_BASE }
    requires entries { 1 ≤ n }
    ensures priority { result ≡ priority base bucket usage n }
    ensures bound { result ≤ base }
{
    match bucket {
        Bucket::Ui => base,
        Bucket::Fg | Bucket::Ini | Bucket::Df | Bucket::Ut | Bucket::Bg => {
            (base as u32).saturating_sub(usage / step(n)) as u8
        }
    }
}

/// How many microseconds of usage cost one step of priority among `n` entries: 16000 by the number of
/// entries, of which no more than eight count. A table, since a division costs more.
fn step(n: u32) -> u32
    requires { 1 ≤ n }
    ensures step { result ≡ usage_step n }
    ensures positive { 0 < result }
{
    match n {
        1 => 16_000,
        2 => 8000,
        3 => 5333,
        4 => 4000,
        5 => 3200,
        6 => 2666,
        7 => 2285,
        _ => 2000,
    }
}
