//! Numbers drawn from a seed, and the acts that they give.

ghost use Rattle.std.specs.Prelude.{◌≡◌, ◌<◌};
ghost use Rattle.flat_policy.specs.Runs.LoadTrace.{bucket_at_index, busy_act, drawn, free_act, free_wake, kept_after, load_make, next_draw};
ghost use Rattle.trace_replay.specs.LoadsSoFar.{FitsLoad};

use sched_base::{Act, Bucket, Facts};

/// The state that a draw makes of the one before.
pub(crate) fn next_draw(x: u64) -> u64
    ensures { result ≡ next_draw x }
{
    x.wrapping_mul(6364136223846793005)
        .wrapping_add(1442695040888963407)
}

/// The number that a state of the draw gives, below 2^31.
pub(crate) fn drawn(x: u64) -> u64
    ensures { result ≡ drawn x }
{
    x / 8589934592
}

/// The bucket of an index below 6.
fn bucket_at_index(i: u64) -> Bucket
    requires { i < 6 }
    ensures { result ≡ bucket_at_index i }
{
    match i {
        0 => Bucket::Ui,
        1 => Bucket::Fg,
        2 => Bucket::Ini,
        3 => Bucket::Df,
        4 => Bucket::Ut,
        _ => Bucket::Bg,
    }
}

/// A make of a name, by what is left of the draw.
fn load_make(name: u32, q: u64) -> Act
    ensures is { result ≡ load_make name q }
    ensures fits { FitsLoad result }
{
    Act::Make {
        name,
        group: ((q / 8) % 8) as u8,
        bucket: bucket_at_index((q / 64) % 6),
        base: (20 + (q / 384) % 44) as u8,
        bound: None,
    }
}

/// Waking the name that sleeps.
fn free_wake(kept: Option<u32>) -> Act
    ensures is { result ≡ free_wake kept }
    ensures fits { FitsLoad result }
{
    match kept {
        Some(name) => Act::Wake { name },
        None => Act::Select,
    }
}

/// The act of an actor with an empty hand, by what is left of the draw: how many threads live, the
/// cluster that isn't the actor's home, and the name that sleeps.
pub(crate) fn free_act(name: u32, q: u64, live: u32, other: u8, kept: Option<u32>) -> Act
    requires { other < 2 }
    ensures is { result ≡ free_act name q live other kept }
    ensures fits { FitsLoad result }
{
    let k = q % 8;
    if live == 0 || (k < 2 && live < 256) {
        load_make(name, q)
    } else if k == 2 {
        Act::Refresh
    } else if k == 3 && kept.is_some() {
        free_wake(kept)
    } else if k == 4 {
        Act::Offer { cluster: other }
    } else {
        Act::Select
    }
}

/// The act of an actor that holds a thread, by what is left of the draw and the name that sleeps.
pub(crate) fn busy_act(q: u64, thread: &Facts, kept: Option<u32>) -> Act
    requires { thread.now.prefer < 2 }
    ensures is { result ≡ busy_act q thread.now kept }
    ensures fits { FitsLoad result }
{
    let k = q % 8;
    if k < 2 {
        Act::Ran {
            us: ((q / 8) % 10001) as u32,
        }
    } else if k == 2 && kept.is_none() {
        Act::Sleep
    } else if k == 3 {
        Act::End
    } else {
        Act::Enter {
            cluster: thread.prefer,
            head: false,
        }
    }
}

/// The name that sleeps after an act, by the thread that the hand held before it.
pub(crate) fn kept_after(kept: Option<u32>, act: &Act, thread: &Option<Facts>) -> Option<u32>
    ensures { result ≡ kept_after kept act.now thread.now }
{
    match (*act, *thread) {
        (Act::Sleep, Some(slept)) => Some(slept.name),
        (Act::Wake { .. }, _) => None,
        _ => kept,
    }
}
