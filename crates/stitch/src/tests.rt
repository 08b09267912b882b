//! Worked examples, and small lists against all orders of their lines.

ghost use Rattle.std.specs.Prelude.{◌≡◌, ◌<◌, ◌≤◌, IsTrue, length};
ghost use Rattle.flat_policy.specs.Runs.Histories.{actor_of};
ghost use Rattle.flat_policy.specs.Runs.Interleaving.{EachLine};
ghost use Rattle.flat_policy.specs.declared.journal.Line.{Line};
ghost use Rattle.stitch.specs.Stops.{LogsAreOfActors};
ghost use Rattle.stitch.specs.Taking.{lines_of as lists_of};

use super::*;
use crate::lines::line_after;
use flat_policy::journal::Journal;
use sched_base::{Act, Answer, Entry, Step};
use std::alloc::Global;
use std::test::Fail;

mod orders;

fn line(moment: u64, actor: u8, act: Act) -> Line {
    let step = Step { moment, actor, act };
    Line {
        entry: Entry {
            step,
            answer: Answer::Empty,
            thread: None,
        },
        mark: None,
    }
}

fn offer(actor: u8, cluster: u8) -> Line {
    line(0, actor, Act::Offer { cluster })
}

fn none_blocked() -> Line {
    let mut told = line(0, 0, Act::Blocked);
    told.entry.answer = Answer::Left(0);
    told
}

/// The line of a letter: selects `a`, `c` of actor 0 and `d` of actor 1, offers `b` and `e` of each, and `f` the answer to
/// actor 0 that no thread is blocked.
fn line_of(letter: u8) -> Line {
    match letter {
        b'a' => line(0, 0, Act::Select),
        b'b' => offer(0, 1),
        b'c' => line(5, 0, Act::Select),
        b'd' => line(0, 1, Act::Select),
        b'e' => offer(1, 0),
        _ => none_blocked(),
    }
}

/// Journals by the letters of their lines, each after a `/`.
fn journals_of(alloc: Global, text: &str) -> Result<Vec<Journal>, AllocError> {
    let mut journals = Vec::new(alloc);
    let mut journal = Journal::new(alloc);
    for letter in text.bytes() {
        if letter == b'/' {
            journals.push(journal)?;
            journal = Journal::new(alloc);
        } else {
            journal.reserve(1)?;
            journal.push(line_of(letter));
        }
    }
    journals.push(journal)?;
    Ok(journals)
}

/// Lines by their letters.
fn lines_of(alloc: Global, text: &str) -> Result<Vec<Line>, AllocError> {
    let mut lines = Vec::new(alloc);
    for letter in text.bytes() {
        lines.push(line_of(letter))?;
    }
    Ok(lines)
}

/// Whether all lines of a log are of an actor.
fn is_of_actor(log: &Journal, a: usize) -> bool
    ensures { IsTrue result → EachLine (λ (l : Line). actor_of l ≡ a) log.now.lines }
{
    for i in 0..log.len() {
        if log.line(i).entry.step.actor as usize != a {
            return false;
        }
    }
    true
}

/// Whether the lines of each log are of the actor whose log it is.
fn are_of_actors(logs: &[Journal]) -> bool
    ensures { IsTrue result → LogsAreOfActors (lists_of logs.now) }
{
    for a in 0..logs.len() {
        if !is_of_actor(&logs[a], a) {
            return false;
        }
    }
    true
}

/// The lines of the stitched history; `None` for lists that may not be stitched.
fn stitched(
    alloc: Global,
    journals: &[Journal],
    logs: &[Journal],
) -> Result<Option<Vec<Line>>, StitchError> {
    if journals.len() < 2 || journals.len() > 9 || logs.len() > 16 || !are_of_actors(logs) {
        return Ok(None);
    }
    let history = stitch(alloc, journals, logs)?;
    Ok(Some(listed(alloc, &history)?))
}

fn listed(alloc: Global, history: &Journal) -> Result<Vec<Line>, AllocError> {
    let mut lines = Vec::new(alloc);
    for i in 0..history.len() {
        lines.push(history.line(i))?;
    }
    Ok(lines)
}

fn astray(
    spot: Spot,
    index: u64,
    here: Option<Line>,
    actor: u8,
    there: Option<Line>,
) -> Option<Astray> {
    Some(Astray {
        spot,
        index,
        here,
        actor,
        there,
    })
}

#[test]
fn crafted_lists(rt: HostRuntime) -> Result<(), Fail> {
    let first = Spot::Cluster(0);
    let [a, c, d, e] = [line_of(b'a'), line_of(b'c'), line_of(b'd'), line_of(b'e')];
    let idle = none_blocked();
    let table = [
        ("ea/bd/", "ab/de", "", astray(first, 0, Some(e), 1, Some(d))),
        ("ae/db/", "ab/de", "adbe", None),
        ("//", "/", "", None),
        ("a//", "ac/", "", astray(first, 1, None, 0, Some(c))),
        ("a//", "/", "", astray(first, 0, Some(a), 0, None)),
        ("ca/d/", "ac/d", "", astray(first, 0, Some(c), 0, Some(a))),
        ("aa/ffff", "faffaf", "faffaf", None),
        (
            "aa/",
            "faffaf",
            "",
            astray(first, 0, Some(a), 0, Some(idle)),
        ),
    ];
    for (journals, logs, lines, stop) in table {
        let journals = journals_of(rt.alloc(), journals)?;
        let logs = journals_of(rt.alloc(), logs)?;
        let told = match stop {
            Some(stop) => Err(StitchError::Astray(stop)),
            None => Ok(Some(lines_of(rt.alloc(), lines)?)),
        };
        assert_eq!(rt; stitched(rt.alloc(), &journals, &logs), told);
    }
    Ok(())
}
