//! How many steps of each kind a load made.

ghost use Rattle.std.specs.Prelude.{◌≡◌, ◌≤◌};
ghost use Rattle.flat_policy.specs.Runs.LoadTrace.{got_one, no_tally, tallied};
ghost use Rattle.trace_replay.specs.LoadsSoFar.{count_total, tally_in};

use sched_base::{Act, Answer};

/// How many steps of each kind were made, and how many selects and offers got a thread.
#[derive(Clone, Copy)]
pub(crate) struct Counts {
    pub makes: u32,
    pub enters: u32,
    pub selects: u32,
    pub selected: u32,
    pub offers: u32,
    pub offered: u32,
    pub rans: u32,
    pub sleeps: u32,
    pub wakes: u32,
    pub ends: u32,
    pub refreshes: u32,
}

impl Counts {
    /// No step yet.
    pub(crate) fn new() -> Counts
        ensures { tally_in result ≡ no_tally }
    {
        Counts {
            makes: 0,
            enters: 0,
            selects: 0,
            selected: 0,
            offers: 0,
            offered: 0,
            rans: 0,
            sleeps: 0,
            wakes: 0,
            ends: 0,
            refreshes: 0,
        }
    }

    /// The counts with one step more.
    pub(crate) fn and(self, act: &Act, answer: &Answer) -> Counts
        requires { count_total (tally_in self) ≤ 400000 }
        ensures { tally_in result ≡ tallied (tally_in self) act.now answer.now }
    {
        let mut more = self;
        match *act {
            Act::Make { .. } => more.makes += 1,
            Act::Enter { .. } => more.enters += 1,
            Act::Select => {
                more.selects += 1;
                more.selected += got_one(answer);
            }
            Act::Offer { .. } => {
                more.offers += 1;
                more.offered += got_one(answer);
            }
            Act::Ran { .. } => more.rans += 1,
            Act::Sleep => more.sleeps += 1,
            Act::Wake { .. } => more.wakes += 1,
            Act::End => more.ends += 1,
            Act::Refresh => more.refreshes += 1,
            _ => {}
        }
        more
    }
}

/// 1 where an answer tells of a thread that was got, else 0.
fn got_one(answer: &Answer) -> u32
    ensures is { result ≡ got_one answer.now }
    ensures most { result ≤ 1 }
{
    match *answer {
        Answer::Got(_) => 1,
        _ => 0,
    }
}
