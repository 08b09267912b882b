//! The windows of the ten lanes, and the lane that they choose.

ghost use Rattle.std.specs.Prelude.{◌≡◌, ◌≢◌, ◌<◌, ◌^◌, ◌↔◌, IfSome, IsTrue, [], Some, false, find, length, map, option_map, replicate, slice_index_or, true};
ghost use Rattle.std.specs.Option.{ForSome};
ghost use Rattle.flat_policy.specs.Policy.Queue.{LaneState, new_lane, timeshare_lanes};
ghost use Rattle.flat_policy.specs.Policy.Setup.{times_for};
ghost use Rattle.flat_policy.specs.Policy.Windows.{at_lane, chosen_of, expired_window, may_pass, renewed_deadline, window_after};
ghost use Rattle.root_deadlines.specs.Lanes.{filled_among};
ghost use Rattle.root_deadlines.specs.Indices.{index_of_lane};
ghost use Rattle.windows.specs.OneLane.{lane_window};
ghost use Rattle.windows.specs.Passing.{passing_with};
ghost use Rattle.windows.specs.WindowStates.{cleared, expired_at, filled_at, filled_of, state_of_lane, with_choice, with_flag};

use crate::window::Window;
use bucket_tables::{Lane, each_lane};
use flat_policy::lanes::{Kind, Starved, Warp};
use flat_policy::setup::Times;
use root_deadlines::{LaneSet, Lanes, lane_at_index, lane_index};
use sched_base::Bucket;
use std::marker::Model;

/// How far the warp of a lane is used, and whether it stands in a starvation window.
#[derive(Clone, Copy, Drop)]
struct Marks {
    warp: Warp,
    starved: Starved,
}

/// The deadlines, warps and starvation windows of the ten timeshare lanes of a cluster, and which
/// of them are filled. In the calls WCEL, WARP and QUANTUM are the times of a lane's bucket.
/// `running` has the lanes of which a warp or a starvation window runs, so that all others need no
/// look when windows expire.
#[derive(Drop)]
pub struct Windows {
    times: [Times; 6],
    lanes: Lanes,
    marks: [Marks; 10],
    running: LaneSet,
}

impl Model for Windows {
    ghost use Rattle.windows.specs.WindowStates.{WindowState};

    ghost Value = { WindowState };

    ghost use Rattle.windows.specs.Views.{TenMarked, windows_over};

    ghost view = { λ w. record {
      times = w.times;
      lanes = windows_over w.lanes.deadlines w.marks;
      filled = w.lanes.filled;
    } };

    ghost invariant = { λ w. TenMarked w.lanes w.marks w.running };
}

impl Windows {
    /// The windows of an empty queue, with the times by bucket index: deadlines 0, every warp
    /// `Unused`, no starvation window, no lane filled.
    pub fn new(times: [Times; 6]) -> Windows
        ensures { result ≡ record {
          times = times;
          lanes = map new_lane timeshare_lanes;
          filled = replicate 10 false;
        } }
    {
        Windows {
            times,
            lanes: Lanes::new(),
            marks: [Marks {
                warp: Warp::Unused,
                starved: Starved::No,
            }; 10],
            running: LaneSet::none(),
        }
    }

    /// The times of a lane's bucket, in microseconds.
    pub fn times(&self, lane: Lane) -> Times
        ensures { times_for self.now.times lane.bucket ≡ result }
    {
        self.times[lane.bucket.index() as usize]
    }

    /// The windows of a lane.
    fn window(&self, lane: Lane) -> Window
        requires { lane.bucket ≢ Bucket.Ui }
        ensures state { state_of_lane self.now lane ≡ lane_window lane result }
        // a change that leaves the state of this lane leaves all
        ensures stays { (change : LaneState → LaneState)
            → change (state_of_lane self.now lane) ≡ state_of_lane self.now lane
            → self.now ≡ record self.now { lanes = at_lane lane change self.now.lanes } }
    {
        let marks = self.marks[lane_index(lane)];
        Window {
            deadline: self.lanes.deadline(lane),
            warp: marks.warp,
            starved: marks.starved,
        }
    }

    /// Writes the changed windows of a lane.
    fn put(&mut self, lane: Lane, window: Window)
        requires { lane.bucket ≢ Bucket.Ui }
        ensures { (change : LaneState → LaneState)
            → change (state_of_lane self.old lane) ≡ lane_window lane window
            → self.new ≡ record self.old { lanes = at_lane lane change self.old.lanes } }
    {
        self.lanes.renew(lane, window.deadline);
        self.marks[lane_index(lane)] = Marks {
            warp: window.warp,
            starved: window.starved,
        };
        self.running.set(lane, window.is_running());
    }

    /// A lane that was empty is filled at `now`: its deadline becomes `now` and WCEL, and it loses
    /// its starvation window. Its warp stays, and so do the other lanes.
    pub fn fill(&mut self, lane: Lane, now: u64)
        requires lane { lane.bucket ≢ Bucket.Ui }
        requires moment { now < 2 ^ 40 }
        ensures { self.new ≡ filled_at now lane self.old }
    {
        let renewed = self.window(lane).renewed(self.times(lane), now);
        self.flag(lane);
        self.put(lane, renewed);
    }

    /// A lane is filled. Its deadline stays.
    fn flag(&mut self, lane: Lane)
        requires { lane.bucket ≢ Bucket.Ui }
        ensures { self.new ≡ record self.old {
          filled = with_flag lane true self.old.lanes self.old.filled;
        } }
    {
        self.lanes.mark_filled(lane);
    }

    /// A lane is empty. Its deadline and its windows stay, and so do the other lanes.
    pub fn clear(&mut self, lane: Lane)
        requires { lane.bucket ≢ Bucket.Ui }
        ensures { self.new ≡ cleared lane self.old }
    {
        self.lanes.clear(lane);
    }

    /// The windows of all ten lanes expire at `now`: a warp whose end has come is spent; a
    /// starvation window that has lasted for QUANTUM ends, and the deadline becomes `now` and WCEL.
    pub fn expire(&mut self, now: u64)
        requires { now < 2 ^ 40 }
        ensures { self.new ≡ expired_at now self.old }
    {
        let mut rest = self.running.copy();
        while let Some(index) = rest.take_highest() {
            self.expire_lane(lane_at_index(index), now);
        }
    }

    /// The windows of one lane expire.
    fn expire_lane(&mut self, lane: Lane, now: u64)
        requires lane { lane.bucket ≢ Bucket.Ui }
        requires moment { now < 2 ^ 40 }
        ensures { self.new ≡ record self.old {
          lanes = at_lane lane (expired_window self.old.times now) self.old.lanes;
        } }
    {
        if let Some(window) = self.window(lane).expired(self.times(lane), now) {
            self.put(lane, window);
        }
    }

    /// Whether no lane is filled.
    pub fn is_empty(&self) -> bool
        ensures { IsTrue result ↔ (filled_of self.now ≡ []) }
    {
        self.lanes.is_empty()
    }

    /// Chooses a lane by deadlines, and how it came to be chosen; the windows of that lane change
    /// with it. `Pass` begins an unused warp, which lasts until `now` and WARP. `Starve` opens a
    /// starvation window where there is none. `Natural` makes the warp unused, ends the starvation
    /// window and makes the deadline `now` and WCEL. The other lanes stay, and so does which lanes
    /// are filled. It reads the windows as they are: let them expire at `now` first.
    pub fn choose(&mut self, now: u64) -> (Lane, Kind)
        requires filled { filled_of self.old ≢ [] }
        requires moment { now < 2 ^ 40 }
        ensures lane { result.0.bucket ≢ Bucket.Ui }
        ensures chosen { chosen_of self.old.times (filled_of self.old)
            ≡ Some (record { lane = result.0; kind = Some result.1 }) }
        ensures changes { self.new ≡ with_choice now result.0 (Some result.1) self.old }
    {
        let (lane, kind) = self.chosen();
        // kind by kind, so that a compiler makes of each the few writes that it wants
        match kind {
            Kind::Pass => self.serve(lane, Kind::Pass, now),
            Kind::Starve => self.serve(lane, Kind::Starve, now),
            Kind::Natural => self.serve(lane, Kind::Natural, now),
        }
        (lane, kind)
    }

    /// The windows of a lane that was chosen change with the kind of its choice.
    fn serve(&mut self, lane: Lane, kind: Kind, now: u64)
        requires lane { lane.bucket ≢ Bucket.Ui }
        requires moment { now < 2 ^ 40 }
        ensures { self.new ≡ with_choice now lane (Some kind) self.old }
    {
        if let Some(window) = self.window(lane).chosen(kind, self.times(lane), now) {
            self.put(lane, window);
        }
    }

    /// The lane that is chosen by deadlines, and how.
    fn chosen(&self) -> (Lane, Kind)
        requires { filled_of self.now ≢ [] }
        ensures lane { result.0.bucket ≢ Bucket.Ui }
        ensures chosen { chosen_of self.now.times (filled_of self.now)
            ≡ Some (record { lane = result.0; kind = Some result.1 }) }
    {
        let first = self.lanes.earliest().unwrap();
        let higher = self.lanes.higher_than(first.bucket);
        if higher.is_empty() {
            return (first, Kind::Natural);
        }
        match self.passing(&higher) {
            Some(lane) => (lane, Kind::Pass),
            None => (first, Kind::Starve),
        }
    }

    /// The highest lane of a set that may pass an earlier deadline.
    fn passing(&self, set: &LaneSet) -> Option<Lane>
        requires { length set.now ≡ 10 }
        ensures lane { IfSome result (λ l. l.bucket ≢ Bucket.Ui) }
        ensures passing { result ≡ option_map (λ (l : LaneState). l.lane)
            (find (may_pass self.now.times) (filled_among set.now self.now.lanes)) }
    {
        // opens what the fields mean for the proof, and costs nothing
        let _ = &self.times;
        let mut found = None;
        each_lane!(lane => found = self.with(found, lane, set));
        found
    }

    /// The lane that was found so far, else one more lane, where that is in the set and may pass.
    fn with(&self, found: Option<Lane>, lane: Lane, set: &LaneSet) -> Option<Lane>
        requires lane { lane.bucket ≢ Bucket.Ui }
        requires found { ForSome found (λ l. l.bucket ≢ Bucket.Ui) }
        ensures lane { ForSome result (λ l. l.bucket ≢ Bucket.Ui) }
        ensures found { result ≡ passing_with (slice_index_or set.now (index_of_lane lane) false)
            self.now.times found (state_of_lane self.now lane) }
    {
        if found.is_some() || !set.contains(lane) {
            return found;
        }
        if self.window(lane).may_pass(self.times(lane)) {
            Some(lane)
        } else {
            None
        }
    }
}
