//! Which lane is chosen, and which of its threads goes first.

ghost use Rattle.std.specs.Prelude.{◌≡◌, ◌≤◌, ◌<◌, ◌+◌, ◌^◌, Some, length};
ghost use Rattle.std.specs.Option.{ForSome};
ghost use Rattle.bound_buckets.specs.Tops.{top_of, tops_of};
ghost use Rattle.flat_policy.specs.Laws.Choice.{better};
ghost use Rattle.flat_policy.specs.Laws.Units.{goes_by_keys, scored};
ghost use Rattle.flat_policy.specs.Policy.ClusterSteps.{facts_of};
ghost use Rattle.flat_policy.specs.Policy.Moves.{pick, selected};
ghost use Rattle.flat_policy.specs.Policy.Queue.{Queued, clutch_of, clutch_place, lane, lane_entries};
ghost use Rattle.flat_policy.specs.Policy.Windows.{chosen};
ghost use Rattle.plain_cluster.specs.Entries.{entry_at, higher};
ghost use Rattle.plain_cluster.specs.Queues.{IsChosen, IsQueue, Leaves, flat_of};
ghost use Rattle.flat_policy.specs.Policy.Precedence.{precedes_in_lane, turn_before};
ghost use Rattle.flat_policy.specs.Policy.Unpreceded.{unpreceded};

use super::Queue;
use crate::row::Row;
use bound_buckets::{Tops, above_ui, bound_score};
use bucket_tables::Lane;
use flat_policy::laws::{
    choice_of_entries_is_one, chooses_a_filled_lane, first_goes_by_keys, lane_priority_by_entries,
    pick_stands_in_lane,
};
use sched_base::limits::MOMENT_LIMIT;
use sched_base::{Bucket, Thread};
use windows::laws::choices_agree;

/// The greater of a priority and one that may be missing.
fn higher(top: Option<u8>, pri: u8) -> Option<u8>
    ensures { result ≡ higher top pri }
{
    match top {
        Some(top) => Some(top.max(pri)),
        None => Some(pri),
    }
}

/// Whether both turns are there, and the first is lower.
fn is_before(turn: Option<u64>, other: Option<u64>) -> bool
    ensures { result ≡ turn_before turn other }
{
    match (turn, other) {
        (Some(turn), Some(other)) => turn < other,
        _ => false,
    }
}

impl Queue {
    /// The pick leaves, at a moment that is not before the last. Windows expire either way.
    pub fn select(&mut self, now: u64) -> Option<Thread>
        requires queue { IsQueue self.old.groups self.old }
        requires moment { now < MOMENT_LIMIT }
        requires turn { self.old.units.next_turn < 2 ^ 62 }
        ensures picked { result ≡ facts_of (pick self.old.windows.times now (flat_of self.old)) }
        ensures left { Leaves self.old self.new (pick self.old.windows.times now (flat_of self.old))
            (selected self.old.windows.times now (flat_of self.old)) }
    {
        chooses_a_filled_lane();
        pick_stands_in_lane();
        choice_of_entries_is_one();
        first_goes_by_keys();
        self.windows.expire(now);
        if self.rows.len() == 0 {
            self.last = now;
            return None;
        }
        let lane = self.choose(now);
        let place = self.first_of(lane).unwrap();
        Some(self.take_selected(place, now))
    }

    /// The lane that is chosen, once windows have expired. Its windows change with it.
    fn choose(&mut self, now: u64) -> Lane
        requires queue { IsQueue self.old.groups self.old }
        requires some { 0 < length self.old.rows.rows }
        requires moment { now < MOMENT_LIMIT }
        ensures { IsChosen self.old self.new now result }
    {
        chooses_a_filled_lane();
        choices_agree();
        let tops = self.tops();
        match above_ui(&tops) {
            Some(bound) => Lane {
                bucket: Bucket::Ui,
                bound,
            },
            None => {
                let (lane, _) = self.windows.choose(now);
                lane
            }
        }
    }

    /// The greatest unit priorities of the lanes of the user interface and the foreground.
    fn tops(&self) -> Tops
        requires { IsQueue self.now.groups self.now }
        ensures { result ≡ tops_of (flat_of self.now) }
    {
        Tops {
            ui: self.top(Bucket::Ui, false),
            ui_bound: self.top(Bucket::Ui, true),
            fg: self.top(Bucket::Fg, false),
            fg_bound: self.top(Bucket::Fg, true),
        }
    }

    /// The greatest unit priority of a lane; `None` where it has no entries.
    fn top(&self, bucket: Bucket, bound: bool) -> Option<u8>
        requires { IsQueue self.now.groups self.now }
        ensures { result ≡ top_of (flat_of self.now) (lane bucket bound) }
    {
        lane_priority_by_entries();
        let lane = Lane { bucket, bound };
        let mut top = None;
        for row in self.rows.as_slice() {
            if row.in_lane(lane) {
                top = higher(top, self.scored(row));
            }
        }
        top
    }

    /// The priority of an entry with the score of its unit, at most 143.
    fn scored(&self, row: &Row) -> u8
        requires { clutch_place (clutch_of row.now.entry.facts) < length self.now.units.spans }
        ensures { result ≡ scored (flat_of self.now) row.now.entry }
    {
        let facts = row.facts();
        if facts.bound.is_some() {
            row.pri() + bound_score(facts.bucket)
        } else {
            row.pri() + self.units.score(facts.group, facts.bucket)
        }
    }

    /// Where the entry stands that goes first in a lane; `None` where the lane has no entries.
    pub fn first_of(&self, lane: Lane) -> Option<usize>
        requires { IsQueue self.now.groups self.now }
        ensures first { entry_at self.now.rows.rows result
            ≡ unpreceded (precedes_in_lane (flat_of self.now)) (lane_entries (flat_of self.now) lane) }
        ensures there { ForSome result (λ place. place < length self.now.rows.rows) }
    {
        choice_of_entries_is_one();
        first_goes_by_keys();
        let mut first = None;
        for (place, row) in self.rows.as_slice().iter().enumerate() {
            if row.in_lane(lane) {
                first = self.better_place(first, place);
            }
        }
        first
    }

    /// The place of the better of the best entry so far and one more.
    fn better_place(&self, first: Option<usize>, place: usize) -> Option<usize>
        requires queue { IsQueue self.now.groups self.now }
        requires place { place < length self.now.rows.rows }
        requires first { ForSome first (λ best. best < length self.now.rows.rows) }
        ensures better { (e : Queued) → entry_at self.now.rows.rows (Some place) ≡ Some e
            → entry_at self.now.rows.rows result ≡ better (goes_by_keys (flat_of self.now)) (entry_at self.now.rows.rows first) e }
        ensures there { ForSome result (λ best. best < length self.now.rows.rows) }
    {
        let rows = self.rows.as_slice();
        match first {
            Some(best) if !self.goes_first(&rows[place], &rows[best]) => first,
            _ => Some(place),
        }
    }

    /// Whether an entry of a lane goes before another of it.
    fn goes_first(&self, row: &Row, other: &Row) -> bool
        requires row { clutch_place (clutch_of row.now.entry.facts) < length self.now.units.spans }
        requires other { clutch_place (clutch_of other.now.entry.facts) < length self.now.units.spans }
        ensures { result ≡ goes_by_keys (flat_of self.now) row.now.entry other.now.entry }
    {
        let (scored, against) = (self.scored(row), self.scored(other));
        if scored != against {
            return against < scored;
        }
        let (facts, others) = (row.facts(), other.facts());
        if facts.bound.is_some() || facts.group == others.group {
            return row.is_ahead(other);
        }
        let turn = self.units.turn(facts.group, facts.bucket);
        let other_turn = self.units.turn(others.group, others.bucket);
        is_before(turn, other_turn)
    }
}
