//! Where a taking stops that leaves lines.

ghost use Rattle.std.specs.Prelude.{◌≡◌, ◌-◌, ◌<◌, ◌≤◌, MatchOption, None, length};
ghost use Rattle.flat_policy.specs.declared.journal.Line.{Line};
ghost use Rattle.stitch.specs.Cursors.{next_in, place_in};
ghost use Rattle.stitch.specs.Left.{AllInHand, FirstLeftAt, FirstLeftOf, LeavesAt, LeavesOf, NextInHand, NoneLeftAt, length_in, spot_at as spot_of_place};

use crate::Astray;
use crate::lines::{line_after, spot_of};
use crate::taken::{Taken, next_of, place_of};
use flat_policy::journal::Journal;
use sched_base::Spot;
use sched_base::limits::MOST_ACTORS;

/// The first spot with a line of its journal left.
pub fn first_left_at(journals: &[Journal], logs: &[Journal], taken: &Taken) -> Option<Astray>
    requires some { 1 ≤ length journals.now }
    requires few { length journals.now ≤ 9 }
    requires logs { length logs.now ≤ 16 }
    ensures { MatchOption result (NoneLeftAt journals.now taken.now.places (length journals.now)) (λ x. FirstLeftAt journals.now logs.now taken.now.places taken.now.actors x) }
{
    for place in 0..journals.len() {
        let stop = left_at(journals, logs, taken, place);
        if stop.is_some() {
            return stop;
        }
    }
    None
}

/// What is told where the journal at a place has a line left.
fn left_at(journals: &[Journal], logs: &[Journal], taken: &Taken, place: usize) -> Option<Astray>
    requires few { length journals.now ≤ 9 }
    requires logs { length logs.now ≤ 16 }
    requires place { place < length journals.now }
    ensures { MatchOption result (next_in journals.now taken.now.places (Some place) ≡ None) (λ x. LeavesAt journals.now logs.now taken.now.places taken.now.actors place x) }
{
    let index = taken.places[place];
    let line = line_after(&journals[place], index)?;
    let actor = line.entry.step.actor;
    Some(Astray {
        spot: spot_at(journals.len(), place),
        index,
        here: Some(line),
        actor,
        there: next_of(logs, &taken.actors, actor),
    })
}

/// The spot of the journal at a place among `count` of them.
fn spot_at(count: usize, place: usize) -> Spot
    requires place { place < count }
    requires few { count ≤ 9 }
    ensures { result ≡ spot_of_place count place }
{
    if place == count - 1 {
        Spot::Yard
    } else {
        Spot::Cluster(place as u8)
    }
}

/// The first actor whose next line has a spot.
pub fn first_left_of(
    journals: &[Journal],
    logs: &[Journal],
    homes: &[u8; MOST_ACTORS],
    taken: &Taken,
) -> Option<Astray>
    requires some { 1 ≤ length journals.now }
    requires logs { length logs.now ≤ 16 }
    ensures { MatchOption result (AllInHand logs.now homes.now taken.now.actors (length logs.now)) (λ x. FirstLeftOf journals.now logs.now homes.now taken.now.actors x) }
{
    for a in 0..logs.len() {
        let stop = left_of(journals, homes[a], &logs[a], taken.actors[a], a as u8);
        if stop.is_some() {
            return stop;
        }
    }
    None
}

/// What is told where the next line of an actor has a spot.
fn left_of(journals: &[Journal], home: u8, log: &Journal, taken: u64, actor: u8) -> Option<Astray>
    requires { 1 ≤ length journals.now }
    ensures { MatchOption result (NextInHand home log.now.lines taken) (λ x. LeavesOf journals.now home log.now.lines taken actor x) }
{
    let there = line_after(log, taken)?;
    let spot = spot_of(home, &there.entry.step.act)?;
    Some(Astray {
        spot,
        index: length_at(journals, spot),
        here: None,
        actor,
        there: Some(there),
    })
}

/// How many lines the journal of a spot has, 0 where it isn't given.
fn length_at(journals: &[Journal], spot: Spot) -> u64
    requires { 1 ≤ length journals.now }
    ensures { result ≡ length_in journals.now (place_in (length journals.now) spot) }
{
    match place_of(journals.len(), spot) {
        Some(place) => journals[place].len(),
        None => 0,
    }
}
