//! Which lanes are filled, and their deadlines.

ghost use Rattle.std.specs.Prelude.{◌≡◌, ◌≢◌, ◌<◌, ◌↔◌, IfSome, IsNone, IsTrue, List, [], false, length, map, option_map, replicate, slice_index, slice_index_or, slice_set, true};
ghost use Rattle.flat_policy.specs.Policy.Queue.{LaneState, timeshare_lanes};
ghost use Rattle.flat_policy.specs.Policy.Windows.{earliest_of};
ghost use Rattle.root_deadlines.specs.Lanes.{AreStatesOf, filled_among, higher_than};
ghost use Rattle.root_deadlines.specs.Indices.{index_of_lane};
ghost use Rattle.root_deadlines.specs.Sooner.{sooner_of};

use crate::indices::{lane_at_index, lane_index};
use crate::lane_set::LaneSet;
use bucket_tables::Lane;
use sched_base::Bucket;
use std::marker::Model;

/// The ten timeshare lanes: which of them are filled, and the deadline of each. Contracts see the
/// flags and the deadlines by the indices of the lanes.
#[derive(Drop)]
pub struct Lanes {
    filled: LaneSet,
    deadlines: [u64; 10],
}

impl Model for Lanes {
    ghost use Rattle.root_deadlines.specs.Lanes.{LaneTable};

    ghost Value = { LaneTable };

    ghost view = { λ lanes. record { filled = lanes.filled; deadlines = lanes.deadlines } };

    ghost use Rattle.root_deadlines.specs.Lanes.{AreTen};

    ghost invariant = { λ lanes. AreTen lanes.filled lanes.deadlines };
}

/// The index of a filled lane, and its deadline.
#[derive(Clone, Copy, Drop)]
struct Due {
    index: usize,
    deadline: u64,
}

/// The sooner of the lane found so far and a later one. At one deadline it is the one found so far.
fn sooner_of(first: Due, next: Due) -> Due
    ensures { result ≡ sooner_of first next }
{
    if next.deadline < first.deadline {
        next
    } else {
        first
    }
}

impl Lanes {
    /// No lane is filled, and every deadline is 0.
    pub fn new() -> Lanes
        ensures { result ≡ record { filled = replicate 10 false; deadlines = replicate 10 0 } }
    {
        Lanes {
            filled: LaneSet::none(),
            deadlines: [0; 10],
        }
    }

    /// The lane is filled and gets the deadline, in microseconds. The other lanes stay.
    pub fn fill(&mut self, lane: Lane, deadline: u64)
        requires { lane.bucket ≢ Bucket.Ui }
        ensures { self.new ≡ record {
          filled = slice_set self.old.filled (index_of_lane lane) true;
          deadlines = slice_set self.old.deadlines (index_of_lane lane) deadline;
        } }
    {
        self.mark_filled(lane);
        self.renew(lane, deadline);
    }

    /// The lane is filled; its deadline stays, and so do the other lanes.
    pub fn mark_filled(&mut self, lane: Lane)
        requires { lane.bucket ≢ Bucket.Ui }
        ensures { self.new ≡ record self.old {
          filled = slice_set self.old.filled (index_of_lane lane) true;
        } }
    {
        self.filled.set(lane, true);
    }

    /// The lane is empty; its deadline stays, and so do the other lanes.
    pub fn clear(&mut self, lane: Lane)
        requires { lane.bucket ≢ Bucket.Ui }
        ensures { self.new ≡ record self.old {
          filled = slice_set self.old.filled (index_of_lane lane) false;
        } }
    {
        self.filled.set(lane, false);
    }

    /// The lane gets a deadline, in microseconds. Which lanes are filled stays.
    pub fn renew(&mut self, lane: Lane, deadline: u64)
        requires { lane.bucket ≢ Bucket.Ui }
        ensures { self.new ≡ record self.old {
          deadlines = slice_set self.old.deadlines (index_of_lane lane) deadline;
        } }
    {
        self.deadlines[lane_index(lane)] = deadline;
    }

    /// The deadline of a lane, in microseconds.
    pub fn deadline(&self, lane: Lane) -> u64
        requires { lane.bucket ≢ Bucket.Ui }
        ensures { result ≡ slice_index self.now.deadlines (index_of_lane lane) }
    {
        self.deadlines[lane_index(lane)]
    }

    /// Whether a lane is filled.
    pub fn filled(&self, lane: Lane) -> bool
        requires { lane.bucket ≢ Bucket.Ui }
        ensures { result ≡ slice_index_or self.now.filled (index_of_lane lane) false }
    {
        self.filled.contains(lane)
    }

    /// Whether no lane is filled.
    pub fn is_empty(&self) -> bool
        ensures { IsTrue result ↔ (filled_among self.now.filled timeshare_lanes ≡ []) }
    {
        self.filled.is_empty()
    }

    /// The filled lanes whose bucket is higher than this one.
    pub fn higher_than(&self, bucket: Bucket) -> LaneSet
        ensures { result ≡ higher_than bucket timeshare_lanes self.now.filled }
    {
        self.filled.higher_than(bucket)
    }

    /// The lane of an index, with its deadline.
    fn due(&self, index: usize) -> Due
        requires { index < 10 }
        ensures { result ≡ record { index = index; deadline = slice_index self.now.deadlines index } }
    {
        Due {
            index,
            deadline: self.deadlines[index],
        }
    }

    /// The filled lane that is due first: by deadline, then bucket index, then bound first.
    /// `None` exactly where no lane is filled.
    pub fn earliest(&self) -> Option<Lane>
        ensures none { IsNone result ↔ (filled_among self.now.filled timeshare_lanes ≡ []) }

        ensures timeshare { IfSome result (λ e. e.bucket ≢ Bucket.Ui) }

        // whatever the warps and starvation windows of the ten lanes are
        ensures first { (windows : List LaneState) → AreStatesOf self.now windows
            → result ≡ option_map (λ (e : LaneState). e.lane) (earliest_of (filled_among self.now.filled windows)) }
    {
        let mut rest = self.filled.copy();
        let mut first = self.due(rest.take_highest()?);
        while let Some(index) = rest.take_highest() {
            first = sooner_of(first, self.due(index));
        }
        Some(lane_at_index(first.index))
    }
}
