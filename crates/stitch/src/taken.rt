//! How many lines of each journal and each log are taken, and what is next.

ghost use Rattle.std.specs.Prelude.{◌≡◌, ◌↔◌, ◌+◌, ◌^◌, ◌<◌, ◌≤◌, IfSome, IsTrue, MatchOption, length, replicate, slice_index, slice_set};
ghost use Rattle.flat_policy.specs.Policy.Machine.{site_of, spot_from};
ghost use Rattle.flat_policy.specs.declared.journal.Line.{Line};
ghost use Rattle.stitch.specs.Cursors.{FitsSpot, IsReady, IsLowestReady, counted, next_in, next_log, place_by, place_in};

use crate::lines::{is_same, line_after, spot_of};
use flat_policy::journal::{Journal, Line};
use sched_base::limits::{MOST_ACTORS, MOST_CLUSTERS};
use sched_base::{Act, Spot};

/// The most journals: one for each cluster, and one for the yard.
const MOST_PLACES: usize = MOST_CLUSTERS + 1;

/// How many lines of each journal and of each log are taken.
#[derive(Clone, Copy)]
pub struct Taken {
    pub places: [u64; MOST_PLACES],
    pub actors: [u64; MOST_ACTORS],
}

impl Taken {
    /// No line is taken.
    pub fn none() -> Taken
        ensures places { result.places ≡ replicate 9 0 }
        ensures actors { result.actors ≡ replicate 16 0 }
    {
        Taken {
            places: [0; MOST_PLACES],
            actors: [0; MOST_ACTORS],
        }
    }

    /// Counts a line of an actor, and of the journal at a place where it has one.
    pub fn count(&mut self, place: Option<usize>, actor: u8)
        requires place { IfSome place (λ p. p < 9) }
        requires actor { actor < 16 }
        requires place_room { IfSome place (λ p. slice_index self.old.places p < 2 ^ 63) }
        requires actor_room { slice_index self.old.actors actor < 2 ^ 63 }
        ensures places { self.new.places ≡ counted self.old.places place }
        ensures actors { self.new.actors ≡ slice_set self.old.actors actor (slice_index self.old.actors actor + 1) }
    {
        if let Some(p) = place {
            self.places[p] += 1;
        }
        self.actors[actor as usize] += 1;
    }
}

/// The place of a spot's journal among `count` journals, where it is given.
pub fn place_of(count: usize, spot: Spot) -> Option<usize>
    requires { 1 ≤ count }
    ensures place { result ≡ place_in count spot }
    ensures within { IfSome result (λ p. p < count) }
{
    match spot {
        Spot::Cluster(c) if (c as usize) < count - 1 => Some(c as usize),
        Spot::Cluster(_) => None,
        Spot::Yard => Some(count - 1),
    }
}

/// The place of the journal that an act of an actor with a home stands in.
pub fn place_of_act(count: usize, home: u8, act: &Act) -> Option<usize>
    requires { 1 ≤ count }
    ensures place { result ≡ place_by count (spot_from home (site_of act.now)) }
    ensures within { IfSome result (λ p. p < count) }
{
    let spot = spot_of(home, act)?;
    place_of(count, spot)
}

/// The next line of a spot, where its journal has one left.
fn next_at(journals: &[Journal], places: &[u64; MOST_PLACES], spot: Spot) -> Option<Line>
    requires some { 1 ≤ length journals.now }
    requires few { length journals.now ≤ 9 }
    ensures { result ≡ next_in journals.now places.now (place_in (length journals.now) spot) }
{
    let place = place_of(journals.len(), spot)?;
    line_after(&journals[place], places[place])
}

/// The next line of an actor, where its log has one left.
pub fn next_of(logs: &[Journal], actors: &[u64; MOST_ACTORS], actor: u8) -> Option<Line>
    requires { length logs.now ≤ 16 }
    ensures { result ≡ next_log logs.now actors.now actor }
{
    let log = actor as usize;
    if log < logs.len() {
        line_after(&logs[log], actors[log])
    } else {
        None
    }
}

/// Whether a line is the next of its spot, or has none.
fn fits_spot(
    journals: &[Journal],
    places: &[u64; MOST_PLACES],
    spot: Option<Spot>,
    line: &Line,
) -> bool
    requires some { 1 ≤ length journals.now }
    requires few { length journals.now ≤ 9 }
    ensures { IsTrue result ↔ FitsSpot journals.now places.now line.now spot }
{
    let Some(spot) = spot else {
        return true;
    };
    match next_at(journals, places, spot) {
        Some(next) => is_same(&next, line),
        None => false,
    }
}

/// The next line of a log of an actor with a home, where it can be taken.
fn ready(
    journals: &[Journal],
    places: &[u64; MOST_PLACES],
    home: u8,
    log: &Journal,
    taken: u64,
) -> Option<Line>
    requires some { 1 ≤ length journals.now }
    requires few { length journals.now ≤ 9 }
    ensures { MatchOption result ((l : Line) → IsReady journals.now places.now home log.now.lines taken l → ⊥) (λ l. IsReady journals.now places.now home log.now.lines taken l) }
{
    let line = line_after(log, taken)?;
    let spot = spot_of(home, &line.entry.step.act);
    if fits_spot(journals, places, spot, &line) {
        Some(line)
    } else {
        None
    }
}

/// The next line of the lowest actor whose next line can be taken.
pub fn lowest_ready(
    journals: &[Journal],
    logs: &[Journal],
    homes: &[u8; MOST_ACTORS],
    taken: &Taken,
) -> Option<Line>
    requires some { 1 ≤ length journals.now }
    requires few { length journals.now ≤ 9 }
    requires logs { length logs.now ≤ 16 }
    ensures { IsLowestReady journals.now logs.now homes.now taken.now.places taken.now.actors result }
{
    for a in 0..logs.len() {
        let line = ready(journals, &taken.places, homes[a], &logs[a], taken.actors[a]);
        if line.is_some() {
            return line;
        }
    }
    None
}
