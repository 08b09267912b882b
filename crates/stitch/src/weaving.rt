//! The taking itself.

ghost use Rattle.std.specs.Prelude.{◌≡◌, ◌+◌, ◌<◌, ◌≤◌, length, sum_by};
ghost use Rattle.sched_base.specs.Limits.{most_actors, most_clusters};
ghost use Rattle.flat_policy.specs.Runs.Journals.{JournalParts};
ghost use Rattle.stitch.specs.Stops.{IsStitch, LogsAreOfActors};
ghost use Rattle.stitch.specs.Taking.{lines_of};

use crate::StitchError;
use crate::homes::homes_of;
use crate::stops::{first_left_at, first_left_of};
use crate::taken::{Taken, lowest_ready, place_of_act};
use flat_policy::journal::Journal;
use std::alloc::Global;

/// Puts journals and logs together: the clusters' journals in order and last the yard's, and the
/// logs of the actors in order.
///
/// The answer is an interleaving of them: restricted to each spot it is that journal, and to each
/// actor that log. It takes at each point the line of the lowest actor whose next line can be taken:
/// one that is also the next of its spot, or has none. `Astray` comes exactly where there is no
/// interleaving, and tells where that taking stops. Work is proportional to the lines.
pub fn stitch(alloc: Global, journals: &[Journal], logs: &[Journal]) -> Result<Journal, StitchError>
    requires cluster { 2 ≤ length journals.now }
    requires clusters { length journals.now ≤ most_clusters + 1 }
    requires logs { length logs.now ≤ most_actors }
    requires actors { LogsAreOfActors (lines_of logs.now) }
    ensures { IsStitch journals.now logs.now result }
{
    let homes = homes_of(&journals[..journals.len() - 1]);
    let mut taken = Taken::none();
    let mut history = Journal::new(alloc);
    history.reserve(lines_in(logs))?;
    while let Some(line) = lowest_ready(journals, logs, &homes, &taken) {
        history.reserve(1)?;
        history.push(line);
        let step = line.entry.step;
        let place = place_of_act(journals.len(), homes[step.actor as usize], &step.act);
        taken.count(place, step.actor);
    }
    if let Some(stop) = first_left_at(journals, logs, &taken) {
        return Err(StitchError::Astray(stop));
    }
    match first_left_of(journals, logs, &homes, &taken) {
        Some(stop) => Err(StitchError::Astray(stop)),
        None => Ok(history),
    }
}

/// How many lines some logs have together.
fn lines_in(logs: &[Journal]) -> u64
    requires { length logs.now ≤ 16 }
    ensures { result ≡ sum_by (λ (log : JournalParts). length log.lines) logs.now }
{
    let mut lines = 0;
    for log in logs {
        lines += log.len();
    }
    lines
}
